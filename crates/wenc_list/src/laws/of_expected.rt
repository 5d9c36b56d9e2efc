//! A law about the bytes that are expected.
ghost use Rattle.std.specs.Prelude.{ℕ, suc};
ghost use Rattle.wenc_base.specs.reading.Entities.{read_unshared, table_of};
ghost use Rattle.wenc_base.specs.declared.types.RefType.{RefType};
ghost use Rattle.wenc_parts.specs.Prelude.{read_value_type, read_core_alias, read_export_or_outer};
ghost use Rattle.wenc_parts.specs.declared.aliases.ComponentOuterAliasKind as outer_kinds;
ghost use Rattle.wenc_parts.specs.declared.exports.ComponentExportKind as kinds;
ghost use Rattle.wenc_types.specs.Prelude.{read_type, read_core_type, read_instance_declaration};
ghost use Rattle.wenc_canon.specs.Prelude.{read_canonical};
ghost use Rattle.wenc_list.specs.Prelude.{read_core_sort};
ghost use Rattle.wenc_read.specs.Prelude.{BeginsWith};
ghost use Rattle.wenc_read.specs.declared.expected.Expected.TheVariants as expected;

/// The bytes that `Expected::ranges` returns are exactly those with which a value can begin: of the
/// forms of components, and of limits of tables.
pub fn expected_bytes_begin()
    ensures limits { (element : RefType)
        → BeginsWith (read_unshared (table_of element)) expected.TableLimits }
    ensures core_type { BeginsWith read_core_type expected.CoreType }
    ensures val_type { BeginsWith read_value_type expected.ComponentValType }
    ensures ty { (levels : ℕ) → BeginsWith (read_type (suc levels)) expected.«Type» }
    ensures declaration { (levels : ℕ)
        → BeginsWith (read_instance_declaration (read_type levels)) expected.InstanceDecl }
    ensures canonical { BeginsWith read_canonical expected.Opcode }
    ensures core_sort { BeginsWith read_core_alias expected.CoreSort }
    ensures core_space { BeginsWith read_core_sort expected.CoreSpace }
    ensures alias { (kind : kinds.ComponentExportKind)
        (outer : outer_kinds.ComponentOuterAliasKind)
        → BeginsWith (read_export_or_outer kind outer) expected.ExportOrOuter }
{}
