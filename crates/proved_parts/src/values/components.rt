//! Worked components: adjacent items of one kind share a section.
ghost use Rattle.std.specs.Prelude.{◌≡◌, ◌∷◌, [], None};
ghost use Rattle.proved_parts.specs.Prelude.{ComponentExportKind, ComponentTypeRef};
ghost use Rattle.wenc_builder.specs.Prelude.{import_entry, export_entry, alias_export_entry, items};
ghost use Rattle.wenc_builder.specs.Prelude.{Run, runs, whole};
ghost use Rattle.wenc_parts.specs.Prelude.{plain_name};

/// Shows the encodings of a component without items, and of one that imports a function and exports
/// it again.
#[tactic(auto, unfolding(wenc_base::specs::Number::groups))]
pub fn components()
    ensures none { whole []
        ≡ 0x00 ∷ 0x61 ∷ 0x73 ∷ 0x6d ∷ 0x0d ∷ 0x00 ∷ 0x01 ∷ 0x00 ∷ [] }
    ensures import_and_export { whole (items
        (import_entry (plain_name (0x66 ∷ [])) (ComponentTypeRef.Func 0)
        ∷ export_entry (plain_name (0x67 ∷ [])) ComponentExportKind.Func 0 None ∷ []))
        ≡ 0x00 ∷ 0x61 ∷ 0x73 ∷ 0x6d ∷ 0x0d ∷ 0x00 ∷ 0x01 ∷ 0x00
        ∷ 0x0a ∷ 0x06 ∷ 0x01 ∷ 0x00 ∷ 0x01 ∷ 0x66 ∷ 0x01 ∷ 0x00
        ∷ 0x0b ∷ 0x07 ∷ 0x01 ∷ 0x00 ∷ 0x01 ∷ 0x67 ∷ 0x01 ∷ 0x00 ∷ 0x00 ∷ [] }
{}

/// Shows that two aliases, an import and an alias are three sections.
pub fn neighbours()
    ensures { runs (items (alias_export_entry 0 [] ComponentExportKind.Func
        ∷ alias_export_entry 1 [] ComponentExportKind.Func
        ∷ import_entry (plain_name []) (ComponentTypeRef.Func 0)
        ∷ alias_export_entry 2 [] ComponentExportKind.Func ∷ []))
        ≡ Run 6 (items (alias_export_entry 0 [] ComponentExportKind.Func
        ∷ alias_export_entry 1 [] ComponentExportKind.Func ∷ []))
        ∷ Run 10 (items (import_entry (plain_name []) (ComponentTypeRef.Func 0) ∷ []))
        ∷ Run 6 (items (alias_export_entry 2 [] ComponentExportKind.Func ∷ [])) ∷ [] }
{}
