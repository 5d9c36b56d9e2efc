//! Examples of `wenc_parts`.
ghost use Rattle.std.specs.Prelude.{◌≡◌, ◌∷◌, [], Some, None, codes};
ghost use Rattle.wenc_parts.specs.Prelude.{alias as alias_form, alias_view, extern_name_view};

use std::borrow::CowStr;
use wenc_parts::{Alias, ComponentExternName, ComponentOuterAliasKind};

/// `Alias`: type 2 of the enclosing component.
#[tactic(auto, unfolding(wenc_base::specs::Number::groups))]
pub fn alias() -> Alias<'static>
    ensures { (alias_form (alias_view result)).text ≡ 0x03 ∷ 0x02 ∷ 0x01 ∷ 0x02 ∷ [] }
{
    let alias = Alias::Outer {
        kind: ComponentOuterAliasKind::Type,
        count: 1,
        index: 2,
    };
    alias
}

/// `ComponentExternName`.
pub fn extern_name() -> ComponentExternName<'static>
    ensures { extern_name_view result ≡ record {
      name = codes "wall:clock/now@1";
      implements = None;
      version_suffix = Some (codes ".2.3");
      external_id = None;
    } }
{
    let mut name = ComponentExternName::from("wall:clock/now@1");
    name.version_suffix = Some(CowStr::Borrowed(".2.3"));
    name
}
