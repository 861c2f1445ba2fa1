//! Rows, and how they are found.

ghost use Rattle.std.specs.Prelude.{◌≡◌, ◌≤◌, ◌<◌, not, filter, length, position, option_copied};
ghost use Rattle.sw_list.specs.Names.{HasNoBareKey};
ghost use Rattle.sw_list.specs.Named.{Finds, KeepsLate, entry_rows, is_above, is_asked, marks_of};

use crate::Numbered;
use crate::names::{Keys, drop_number, next_number};
use sw_data::Text;

/// A value under a key and a name.
#[derive(Drop)]
pub struct Row<V> {
    pub key: Text,
    pub name: Text,
    pub value: V,
}

// The place of the first row of a key, or of a key and a name, whose number is above another one; it
// takes no memory.
pub(crate) fn first_asked<V>(
    rows: &Numbered<Row<V>>,
    keys: &Keys,
    key: &Text,
    name: Option<&Text>,
    low: u64,
) -> Option<usize>
    requires { Finds (marks_of rows.now.rows) keys.now.entries rows.now.next }
    ensures { result
        ≡ position (is_above low key.now (option_copied name.entry)) (marks_of rows.now.rows) }
{
    match next_number(keys, key, name, low) {
        Some(number) => rows.place(number),
        None => None,
    }
}

// Takes out the rows of a key, or of a key and a name; it takes no memory.
pub(crate) fn drop_asked<V: Drop>(
    rows: &mut Numbered<Row<V>>,
    keys: &mut Keys,
    key: &Text,
    name: Option<&Text>,
)
    requires { Finds (marks_of rows.old.rows) keys.old.entries rows.old.next }
    ensures found { Finds (marks_of rows.new.rows) keys.new.entries rows.new.next }
    ensures late { KeepsLate rows.old.next keys.old.entries keys.new.entries }
    ensures bare { HasNoBareKey keys.old.entries → HasNoBareKey keys.new.entries }
    ensures rows { entry_rows rows.new.rows
        ≡ filter (λ row. not (is_asked key.now (option_copied name.entry) row))
        (entry_rows rows.old.rows) }
    ensures next { rows.new.next ≡ rows.old.next }
    ensures bound { length rows.new.rows ≤ length rows.old.rows }
{
    while let Some(place) = first_asked(rows, keys, key, name, 0) {
        let number = rows.number(place).unwrap();
        let row = rows.remove(place);
        drop_number(keys, &row.key, &row.name, number);
    }
}
