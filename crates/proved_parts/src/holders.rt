//! Holders with bytes that are kept before their members, and sections over them.
ghost use Rattle.std.specs.Prelude.{◌≡◌, ◌∷◌, [], IfOk};
ghost use Rattle.wenc_base.specs.Prelude.{holding, HasMembers, HasForm};
ghost use Rattle.wenc_canon.specs.Prelude.{canonical};
ghost use Rattle.wenc_parts.specs.Prelude.{alias};

use std::alloc::{AllocError, Allocator};
use wenc_base::{Fault, Holder, Verbatim};
use wenc_canon::CanonicalFunctionSection;
use wenc_sections::ComponentAliasSection;

/// Two bytes, and the encoding of an alias after them.
const ALIAS: [u8; 7] = [0xaa, 0xbb, 0x01, 0x00, 0x00, 0x01, 0x66];

/// Two bytes, and the encoding of a function after them.
const FUNCTION: [u8; 3] = [0xaa, 0xbb, 0x05];

/// Returns a holder of that alias.
#[tactic(auto, using(crate::proofs::Kept::one_byte_long))]
fn alias_kept<A: Allocator>(alloc: A) -> Result<Holder<A>, AllocError>
    ensures { IfOk result (HasMembers (HasForm alias)) }
{
    Ok(Holder::over(Vec::from_array(alloc, ALIAS)?, 2, 1))
}

/// Returns a holder of two bytes, that alias, and an alias that is being written.
fn alias_begun<A: Allocator>(alloc: A) -> Result<Holder<A>, Fault>
    ensures { IfOk result (HasMembers (HasForm alias)) }
{
    let mut holder = alias_kept(alloc)?;
    holder.open(&[0x03])?;
    Ok(holder)
}

/// Returns a section of that alias.
pub fn aliases<A: Allocator>(alloc: A) -> Result<ComponentAliasSection<A>, Fault> {
    Ok(ComponentAliasSection::from_holder(alias_kept(alloc)?))
}

/// Returns a section in which an alias is being written.
pub fn unfinished_aliases<A: Allocator>(alloc: A) -> Result<ComponentAliasSection<A>, Fault> {
    Ok(ComponentAliasSection::from_holder(alias_begun(alloc)?))
}

/// Returns a holder of that function.
#[tactic(auto, using(crate::proofs::Kept::one_byte_long))]
fn function_kept<A: Allocator>(alloc: A) -> Result<Holder<A>, AllocError>
    ensures { IfOk result (HasMembers (HasForm canonical)) }
{
    Ok(Holder::over(Vec::from_array(alloc, FUNCTION)?, 2, 1))
}

/// Returns a section of that function.
pub fn functions<A: Allocator>(alloc: A) -> Result<CanonicalFunctionSection<A>, AllocError> {
    Ok(CanonicalFunctionSection::from_holder(function_kept(alloc)?))
}

/// Returns a holder of two bytes, and one member after them.
#[tactic(auto, using(crate::proofs::Kept::one_byte_long))]
pub fn over_four_bytes<A: Allocator>(alloc: A) -> Result<Holder<A>, AllocError>
    ensures { IfOk result (λ h. h ≡ holding (0xaa ∷ 0xbb ∷ []) 1 (0x03 ∷ 0x00 ∷ [])) }
{
    Ok(Holder::over(Vec::from_array(alloc, [0xaa, 0xbb, 0x03, 0x00])?, 2, 1))
}

/// Keeps all bytes and two more, and then restores the holder.
#[tactic(auto, using(crate::proofs::Kept::one_byte_long))]
pub fn gone_back<A: Allocator>(alloc: A) -> Result<Holder<A>, Fault> {
    let mut holder = over_four_bytes(alloc)?;
    holder.keep_all(&Verbatim(&[0x10, 0x11]))?;
    holder.go_back(2, 4, 1);
    Ok(holder)
}

/// Replaces the two kept bytes by one. The members stay.
#[tactic(auto, using(crate::proofs::Kept::one_byte_long))]
pub fn filled<A: Allocator>(alloc: A) -> Result<Holder<A>, AllocError> {
    let mut holder = over_four_bytes(alloc)?;
    holder.fill_kept(0, 2, &[0xcc]);
    Ok(holder)
}
