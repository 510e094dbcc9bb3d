//! A law of packing, as the contract of a function.
ghost use Rattle.pack_update.specs.OneAnswer.{PackedIsOneAnswer};

/// A manifest is packed to one answer, so the relation of files and their answers may be used as a function.
pub fn packed_is_one_answer()
    ensures { PackedIsOneAnswer }
{}
