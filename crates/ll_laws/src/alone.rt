//! Laws of one history, each proved.

ghost use Rattle.ll_laws.specs.NoGain.{NoGain};
ghost use Rattle.ll_laws.specs.Withheld.{BytesAreWithheld};

/// Suppose that every move (rename, rename_noreplace, exchange, link) is made under a layer. Then no inode that had a
/// name gains, by any name, a right of the layer that applies to its kind.
pub fn reach_never_grows()
    ensures { NoGain }
{}

/// If every move is made under a layer, clients under it, and those that they spawn, read and change other files' bytes
/// only by a right of the layer. Other files are those that none of these clients has open.
pub fn bytes_stay_withheld()
    ensures { BytesAreWithheld }
{}
