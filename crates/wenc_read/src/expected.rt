//! What can be read on where bytes can't be.
ghost use Rattle.std.specs.Prelude.{◌≡◌};
ghost use Rattle.wenc_read.specs.Prelude.{ranges_of};

/// What can be read at a place at which the bytes can't be read on.
#[derive(Clone, Copy, Debug, PartialEq, Eq)]
pub enum Expected {
    /// So many bytes or more, where fewer are left.
    Bytes(u32),
    /// No byte.
    End,
    /// A character of a text.
    Utf8,
    /// A number of at most so many bits.
    Bits(u8),
    /// A byte from the first to the second of these.
    From(u8, u8),
    /// A byte of an index that is a signed number.
    Index,
    /// The sort of an alias of a core item, after `00`.
    CoreSort,
    /// `00` for an alias of an export, or `02` for one of an outer item.
    ExportOrOuter,
    /// The sort of a core item, after `00`, in a name section.
    CoreSpace,
    /// The number of options of a name, from 1 to 3.
    OptionCount,
    /// The opcode of a canonical function.
    Opcode,
    /// A core type.
    SubType,
    /// A core type or a recursion group.
    Group,
    /// A core type of a component.
    CoreType,
    /// A reference type.
    RefType,
    /// A value type of core modules.
    ValType,
    /// The type of a field of a core type.
    StorageType,
    /// A heap type.
    HeapType,
    /// The limits of a table.
    TableLimits,
    /// A value type.
    ComponentValType,
    /// A type.
    Type,
    /// A declaration of an instance type.
    InstanceDecl,
}

/// A range without a byte.
const NONE: (u8, u8) = (1, 0);

impl Expected {
    /// Returns the bytes that can be there: ascending ranges, each from a first byte to a last one.
    /// There is none where the end, bytes of any kind, or a whole number or text is expected.
    pub fn ranges(self) -> [(u8, u8); 4]
        ensures { result ≡ ranges_of self }
    {
        match self {
            Expected::From(first, last) => [(first, last), NONE, NONE, NONE],
            Expected::Index => [(0, 0x3f), (0x80, 0xff), NONE, NONE],
            Expected::CoreSort => [(0, 4), (0x10, 0x11), NONE, NONE],
            Expected::CoreSpace => [(0, 4), (0x10, 0x12), NONE, NONE],
            Expected::ExportOrOuter => [(0, 0), (2, 2), NONE, NONE],
            Expected::OptionCount => [(1, 3), (0x81, 0x83), NONE, NONE],
            Expected::Opcode => [(0, 6), (9, 0x2f), (0x40, 0x42), NONE],
            Expected::SubType => [(0x4f, 0x50), (0x5e, 0x60), NONE, NONE],
            Expected::Group => [(0x4e, 0x50), (0x5e, 0x60), NONE, NONE],
            Expected::CoreType => [(0, 0), (0x4e, 0x50), (0x5e, 0x60), NONE],
            Expected::RefType => [(0x63, 0x64), (0x69, 0x74), NONE, NONE],
            Expected::ValType => [(0x63, 0x64), (0x69, 0x74), (0x7b, 0x7f), NONE],
            Expected::StorageType => [(0x63, 0x64), (0x69, 0x74), (0x77, 0x78), (0x7b, 0x7f)],
            Expected::HeapType => [(0, 0x3f), (0x69, 0x74), (0x80, 0xff), NONE],
            Expected::TableLimits => [(0, 1), (4, 5), NONE, NONE],
            Expected::ComponentValType => [(0, 0x3f), (0x64, 0x64), (0x73, 0xff), NONE],
            Expected::Type => [(0x3f, 0x43), (0x63, 0x6b), (0x6d, 0x7f), NONE],
            Expected::InstanceDecl => [(0, 2), (4, 4), NONE, NONE],
            Expected::Bytes(_) | Expected::End | Expected::Utf8 | Expected::Bits(_) => {
                [NONE, NONE, NONE, NONE]
            }
        }
    }
}
