// The record of a place: its eight fields as the unit keeps them.
ghost use Rattle.std.specs.Prelude.{◌≡◌, ◌-◌, slice_set};
ghost use Rattle.sheet.specs.Settings.{setting_number, setting_value, fields_of};

use crate::choice::{ComponentType, VotingKind};
use crate::setting::Setting;

// The settings of one place, any of which may be blank: hours, ten-thousandths, component type and voting.
#[derive(Clone, Copy)]
pub struct PlaceRecord {
    pub(crate) proof_test_interval: Option<u32>,
    pub(crate) mttr: Option<u16>,
    pub(crate) mrt: Option<u16>,
    pub(crate) beta: Option<u16>,
    pub(crate) beta_d: Option<u16>,
    pub(crate) k: Option<u16>,
    pub(crate) component_type: Option<ComponentType>,
    pub(crate) voting: Option<VotingKind>,
}

// The same number, if there is one.
fn widened(value: Option<u16>) -> Option<u32>
    ensures { result ≡ value }
{
    value.map(u32::from)
}

impl PlaceRecord {
    pub(crate) const BLANK: PlaceRecord = PlaceRecord {
        proof_test_interval: None,
        mttr: None,
        mrt: None,
        beta: None,
        beta_d: None,
        k: None,
        component_type: None,
        voting: None,
    };

    // Writes one field.
    pub(crate) fn put(&mut self, setting: Setting)
        ensures { fields_of self.new ≡ slice_set (fields_of self.old) (setting_number setting - 1) (setting_value setting) }
    {
        match setting {
            Setting::ProofTestInterval(v) => self.proof_test_interval = v,
            Setting::Mttr(v) => self.mttr = v,
            Setting::Mrt(v) => self.mrt = v,
            Setting::Beta(v) => self.beta = v,
            Setting::BetaD(v) => self.beta_d = v,
            Setting::K(v) => self.k = v,
            Setting::ComponentType(v) => self.component_type = v,
            Setting::Voting(v) => self.voting = v,
        }
    }

    // The values of the eight fields in order, by their numbers.
    pub(crate) fn values(&self) -> [Option<u32>; 8]
        ensures { result ≡ fields_of self.now }
    {
        [
            self.proof_test_interval,
            widened(self.mttr),
            widened(self.mrt),
            widened(self.beta),
            widened(self.beta_d),
            widened(self.k),
            self.component_type.map(u32::from),
            self.voting.map(u32::from),
        ]
    }
}
