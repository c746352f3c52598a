// The header and the flags of a parcel.
ghost use Rattle.std.specs.Prelude.{◌≡◌, ◌+◌, ◌*◌, ◌<◌, ◌≤◌, ◌^◌, length, IfOk};
ghost use Rattle.std.specs.Option.{ok_or};
ghost use Rattle.parcels.specs.Layouts.{parcel_header, bits, kind_named, laid_out, reserved_set, flagged, layout_of, limit_of, HeaderFitsIn, FitsIn};
ghost use Rattle.parcels.specs.declared.layout.TheConstants.{MAX_SLOTS};

use crate::literals::LITERAL_BYTES;
use values::{Fault, Rule, Unknown};

/// How many bytes stand before the literals: the kind, the number of literals, the flags and the
/// length of the code.
pub const HEADER_BYTES: usize = 10;

/// The most literals that a parcel has.
pub const MAX_LITERALS: u16 = 1024;

/// The most bytes that a code has.
pub const MAX_CODE: u16 = 4096;

/// The most slots that flags can ask for.
pub const MAX_SLOTS: u8 = 252;

/// What the code is: a method, or a block with its chain use.
#[derive(Clone, Copy, PartialEq, Eq, Debug)]
pub enum CodeKind {
    Method,
    Block { chain: u8 },
}

/// What the header and the flags say: what the code is, the number of literals, the bytes of the
/// code, and the cells that it asks for. The locals are the first of the slots.
#[derive(Clone, Copy, PartialEq, Eq, Debug)]
pub struct Layout {
    pub kind: CodeKind,
    pub literal_count: u16,
    pub code_length: u16,
    pub argument_count: u8,
    pub slot_count: u8,
    pub local_count: u8,
}

// What the first two bytes say that the code is; the chain use of a block stands in its flags.
#[derive(Clone, Copy, PartialEq, Eq, Debug)]
pub enum Kind {
    Method,
    Block,
}

impl TryFrom<u16> for Kind {
    type Error = Unknown<u16>;

    ghost try_from_gives = { λ n r. r ≡ ok_or (kind_named n) (record { 0 = n }) };

    // The kind that a number stands for.
    fn try_from(number: u16) -> Result<Kind, Unknown<u16>> {
        match number {
            0 => Ok(Kind::Method),
            1 => Ok(Kind::Block),
            _ => Err(Unknown(number)),
        }
    }
}

// The bytes before the literals, with their numbers read.
#[derive(Clone, Copy)]
pub struct ParcelHeader {
    pub kind: Kind,
    pub literal_count: u16,
    pub flags: u32,
    pub code_length: u16,
}

// The header of a parcel, or the first header rule that it breaks.
fn read_header(bytes: &[u8]) -> Result<ParcelHeader, Fault>
    ensures answer { result ≡ parcel_header bytes.now }
    ensures fits { IfOk result (λ h. HeaderFitsIn h (length bytes.now)) }
{
    let [k1, k0, n1, n0, f3, f2, f1, f0, l1, l0, ..] = bytes else {
        return Err(Rule::HeaderShort.at(0));
    };
    let Ok(kind) = Kind::try_from(u16::from_be_bytes([*k1, *k0])) else {
        return Err(Rule::KindUnknown.at(0));
    };
    let literal_count = u16::from_be_bytes([*n1, *n0]);
    if literal_count > MAX_LITERALS {
        return Err(Rule::LiteralsTooMany.at(2));
    }
    let code_length = u16::from_be_bytes([*l1, *l0]);
    if code_length > MAX_CODE {
        return Err(Rule::CodeTooLong.at(8));
    }
    if bytes.len() != HEADER_BYTES + LITERAL_BYTES * literal_count as usize + code_length as usize {
        return Err(Rule::LengthWrong.at(8));
    }
    let flags = u32::from_be_bytes([*f3, *f2, *f1, *f0]);
    Ok(ParcelHeader {
        kind,
        literal_count,
        flags,
        code_length,
    })
}

// The number in so many bits of the flags, from bit `low` on.
fn bits(flags: u32, low: u32, width: u32) -> u8
    requires { (low < 32) × (width ≤ 8) }
    ensures number { result ≡ bits flags low width }
    ensures small { result < 2 ^ width }
{
    ((flags >> low) % (1 << width)) as u8
}

// What the flags of a method or a block say; the rules on them come after.
fn layout_by_flags(header: ParcelHeader) -> Layout
    ensures { result ≡ laid_out header }
{
    let flags = header.flags;
    match header.kind {
        Kind::Method => Layout {
            kind: CodeKind::Method,
            literal_count: header.literal_count,
            code_length: header.code_length,
            argument_count: bits(flags, 0, 5),
            slot_count: 4 * bits(flags, 5, 6),
            local_count: bits(flags, 11, 6),
        },
        Kind::Block => Layout {
            kind: CodeKind::Block {
                chain: bits(flags, 0, 6),
            },
            literal_count: header.literal_count,
            code_length: header.code_length,
            argument_count: bits(flags, 25, 5),
            slot_count: 4 * bits(flags, 14, 6),
            local_count: bits(flags, 20, 5),
        },
    }
}

// Whether a bit of the flags is set that has to be 0.
fn reserved(header: ParcelHeader) -> bool
    ensures { result ≡ reserved_set header }
{
    let flags = header.flags;
    match header.kind {
        Kind::Method => flags >> 17 != 0,
        Kind::Block => bits(flags, 6, 8) != 0 || bits(flags, 30, 2) != 0,
    }
}

// The layout that a header gives, or the first flag rule that it breaks.
fn read_flags(header: ParcelHeader) -> Result<Layout, Fault>
    ensures answer { result ≡ flagged header }
    ensures literals { IfOk result (λ l. l.literal_count ≡ header.literal_count) }
    ensures code { IfOk result (λ l. l.code_length ≡ header.code_length) }
    ensures slots { IfOk result (λ l. l.slot_count ≤ MAX_SLOTS) }
{
    if reserved(header) {
        return Err(Rule::FlagsReserved.at(4));
    }
    let layout = layout_by_flags(header);
    if layout.local_count > layout.slot_count {
        return Err(Rule::LocalsOverSlots.at(4));
    }
    Ok(layout)
}

impl Layout {
    /// The layout of a parcel, or the first rule of its header or its flags that it breaks.
    pub fn read(bytes: &[u8]) -> Result<Layout, Fault>
        ensures answer { result ≡ layout_of bytes.now }
        ensures fits { IfOk result (λ l. FitsIn l (length bytes.now)) }
    {
        let header = read_header(bytes)?;
        read_flags(header)
    }

    /// How many cells a frame has to have: those of the arguments and the slots.
    pub fn cells(self) -> usize
        ensures { result ≡ self.argument_count + self.slot_count }
    {
        usize::from(self.argument_count) + usize::from(self.slot_count)
    }

    /// The cell of a frame at which the working cells begin, behind the arguments and the locals.
    pub fn base(self) -> usize
        ensures { result ≡ self.argument_count + self.local_count }
    {
        usize::from(self.argument_count) + usize::from(self.local_count)
    }

    /// The greatest height that a stack of working cells may have: what the slots leave beside the
    /// locals.
    pub fn limit(self) -> u8
        ensures { result ≡ limit_of self }
    {
        self.slot_count.saturating_sub(self.local_count)
    }
}
