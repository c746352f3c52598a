// A context: what is checked.
ghost use Rattle.std.specs.Prelude.{◌≤◌, length};
ghost use Rattle.parcels.specs.declared.layout.TheConstants.{MAX_CODE, MAX_SLOTS};

use parcels::Parcel;

// A parcel, taken apart, and the host that is asked about it. The caller says whether the parcel is
// trusted.
#[derive(Drop)]
pub struct Context<'a, H> {
    pub host: &'a H,
    pub parcel: Parcel<'a>,
    pub trusted: bool,
    ghost short: { length parcel.code.now ≤ MAX_CODE },
    ghost low: { parcel.layout.slot_count ≤ MAX_SLOTS },
}
