// A run of an accepted parcel.
ghost use Rattle.std.specs.Prelude.{◌≡◌};
ghost use Rattle.parcels.specs.Parts.{parts};
ghost use Rattle.semantics.specs.declared.states.State.TheVariants.{Live};
ghost use Rattle.safety.specs.Ready.{Ready};

use parcels::Parcel;
use semantics::State;

/// A run borrows its parcel, notes the counts of its host, and is in a state at a place and a
/// height. While it is live, the parcel keeps every rule with these counts, and a path reaches the
/// place at the height.
#[derive(Drop)]
pub struct Run<'a> {
    pub(crate) parcel: Parcel<'a>,
    pub(crate) variable_count: usize,
    pub(crate) binding_count: usize,
    pub(crate) state: State,
    pub(crate) place: usize,
    pub(crate) height: usize,
    ghost ready: { (state ≡ Live
        → ∥ Ready (parts parcel) variable_count binding_count place height ∥₁) },
}
