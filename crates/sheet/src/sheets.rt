// The sheet as its users hold it.
use crate::mode::Mode;
use crate::record::PlaceRecord;
use crate::rows::Rows;
use std::marker::Model;

// A mode, eight places with eight fields each, and up to 64 rows.
#[derive(Drop)]
pub struct Sheet {
    pub(crate) mode: Option<Mode>,
    pub(crate) places: [PlaceRecord; 8],
    pub(crate) rows: Rows,
}

// A sheet is seen as what stands on it, and every setting on it is within its limits.
impl Model for Sheet {
    ghost use Rattle.sheet.specs.Model.{Model};

    ghost Value = { Model };

    ghost use Rattle.sheet.specs.Holds.{Limited, model_of};

    ghost view = { model_of };

    ghost invariant = { Limited };
}
