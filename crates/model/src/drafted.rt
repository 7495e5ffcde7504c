// The two models over a file's bytes. What the type says of the bytes holds of a well-formed file and of
// the one without rows. A settled model has, in the body of each definition, only lower definitions open.
// Neither can be copied: settling takes the draft.
ghost use Rattle.model.specs.Sound.{Few, LeftBefore, RightBefore, Visible, Known, Named, Apart, Low, Bodied, Lower};

use crate::file::File;

#[derive(Drop)]
pub struct Drafted<'a> {
    pub(crate) file: File<'a>,
    ghost few: { Few file.bytes.now },
    ghost left: { LeftBefore file.bytes.now },
    ghost right: { RightBefore file.bytes.now },
    ghost visible: { Visible file.bytes.now },
    ghost known: { Known file.bytes.now },
    ghost named: { Named file.bytes.now },
    ghost apart: { Apart file.bytes.now },
    ghost low: { Low file.bytes.now },
    ghost bodied: { Bodied file.bytes.now },
}

#[derive(Drop)]
pub struct Settled<'a> {
    pub(crate) draft: Drafted<'a>,
    ghost lower: { Lower draft.file.bytes.now },
}
