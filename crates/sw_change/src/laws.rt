//! Laws of the kept content. A call does nothing; its clause is the law.

ghost use Rattle.sw_change.specs.Laws.{IsRebuilt};

/// The changes of a checkpoint make, of nothing, the content that it is of.
pub fn is_rebuilt()
    ensures { IsRebuilt }
{}
