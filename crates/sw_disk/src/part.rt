//! The parts of a disk.

ghost use Rattle.std.specs.Prelude.{◌≡◌};
ghost use Rattle.sw_disk.specs.Image.{get};
ghost use Rattle.std.specs.Borrow.{sem};
ghost use Rattle.sw_disk.specs.Lending.{LendsPart};

/// A part of a disk. The root tells which of the other two is current.
#[derive(Debug, Clone, Copy, PartialEq, Eq)]
pub enum Part {
    Root,
    Left,
    Right,
}

// What there is of each part.
#[derive(Debug, Drop)]
pub(crate) struct Parts<T> {
    pub(crate) root: T,
    pub(crate) left: T,
    pub(crate) right: T,
}

impl<T> Parts<T> {
    // What there is of one part.
    pub(crate) fn get(&self, part: Part) -> &T
        ensures { result.now ≡ get part self.now }
    {
        match part {
            Part::Root => &self.root,
            Part::Left => &self.left,
            Part::Right => &self.right,
        }
    }

    // What there is of one part, to be changed.
    pub(crate) fn get_mut(&mut self, part: Part) -> &mut T
        ensures* writes_back { sem 𝓛 (LendsPart T.row part self.entry result) }
        ensures value { result.now ≡ get part self.old }
    {
        match part {
            Part::Root => &mut self.root,
            Part::Left => &mut self.left,
            Part::Right => &mut self.right,
        }
    }
}
