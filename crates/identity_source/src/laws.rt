//! Laws of lists of states, each as the contract of a function that does no work.
ghost use Rattle.std.specs.Prelude.{◌≡◌, ◌+◌, List, length};
ghost use Rattle.identity_source.specs.History.{EndsWith, IsHistory, StartsWith, first_revision, last_revision};
ghost use Rattle.identity_source.specs.State.{PlainState};

/// A list has one last state, and a revision names one state: where a list begins with another, and
/// both end in states of one revision, these are one state. So what a reader gives at the revision of a
/// receipt that it was told is the receipt's state.
pub fn states_are_told_by_revision()
    ensures last { (list : List PlainState) (x y : PlainState) → EndsWith list x → EndsWith list y → y ≡ x }
    ensures revision { (whole seen : List PlainState) (x y : PlainState) → IsHistory whole → IsHistory seen → StartsWith whole seen
        → EndsWith seen x → EndsWith whole y → y.revision ≡ x.revision → y ≡ x }
{}

/// The last revision of a history counts its states. So of two histories under one name the longer one
/// ends in the later revision.
pub fn states_are_counted_by_revision()
    ensures count { (list : List PlainState) (x : PlainState) → IsHistory list → EndsWith list x → x.revision + 1 ≡ first_revision list + length list }
    ensures last { (list : List PlainState) (x : PlainState) → EndsWith list x → last_revision list ≡ x.revision }
{}
