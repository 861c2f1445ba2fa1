//! Lists by number: values under rising numbers (`Numbered`) or under any numbers (`Ordered`), in order of adding; flags
//! by number (`Flags`); values under keys and names (`Named`); how many things each text has (`Tally`); and an index that
//! finds numbers by digests (`Slots`).
//!
//! Each row of a `Named` has a number, and the numbers rise. A map has the numbers of each key, in
//! order, and by name, and no other number but that of a row that was made and isn't there yet. So no
//! other row is read or compared to find one.
//!
//! `Slots` are an index for numbers whose texts aren't kept: it has a number under digests. Two texts
//! can have one digest: a number that it finds is looked up, and what has the number is tested.
#![tactic(auto)]

mod flag_places;
mod flags;
mod holes;
mod marks;
mod named;
mod names;
mod numbered;
mod ordered;
mod row;
mod slots;
mod tally;

pub use flags::Flags;
pub use marks::{Mark, Slots, digest, mixed, next_number, put_mark, take_mark, take_marks};
pub use named::{Named, NewRow};
pub use numbered::Numbered;
pub use ordered::Ordered;
pub use row::Row;
pub use tally::Tally;
