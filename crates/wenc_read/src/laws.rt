//! A law about the definitions. A call of it does nothing.
ghost use Rattle.wenc_base.specs.Prelude.{flag, index, u32 as number};
ghost use Rattle.wenc_base.specs.Prelude.{u64 as long_number, byte as one_byte, read_byte};
ghost use Rattle.wenc_base.specs.Prelude.{read_flag, read_index, read_u32, read_u64};
ghost use Rattle.wenc_base.specs.Prelude.{read_heap_type, read_reference, read_val_type};
ghost use Rattle.wenc_base.specs.Prelude.{read_storage_type, read_sub_type, read_group};
ghost use Rattle.wenc_read.specs.Prelude.{IsExact, BeginsWith};
ghost use Rattle.wenc_read.specs.declared.expected.Expected.TheVariants.{Index, HeapType, RefType};
ghost use Rattle.wenc_read.specs.declared.expected.Expected.TheVariants.{ValType, StorageType};
ghost use Rattle.wenc_read.specs.declared.expected.Expected.TheVariants.{SubType, Group};

/// The readers of this crate's functions are exact: what a function returns is read widely, with
/// the bytes that follow, and it returns whatever is read so.
pub fn readers_are_exact()
    ensures byte { IsExact one_byte read_byte }
    ensures short { IsExact number read_u32 }
    ensures long { IsExact long_number read_u64 }
    ensures index { IsExact index read_index }
    ensures flag { IsExact flag read_flag }
{}

/// The bytes that `Expected::ranges` returns are exactly those with which a value can begin: of
/// indices, and of the forms of core modules.
pub fn expected_core_bytes_begin()
    ensures index { BeginsWith read_index Index }
    ensures heap_type { BeginsWith read_heap_type HeapType }
    ensures ref_type { BeginsWith read_reference RefType }
    ensures val_type { BeginsWith read_val_type ValType }
    ensures storage_type { BeginsWith read_storage_type StorageType }
    ensures sub_type { BeginsWith read_sub_type SubType }
    ensures group { BeginsWith read_group Group }
{}
