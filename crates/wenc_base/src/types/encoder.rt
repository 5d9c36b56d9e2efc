//! The encoder of core types.
ghost use Rattle.std.specs.Iterator.{IsFinite};
ghost use Rattle.std.specs.Prelude.{◌≡◌, true, false, map};
ghost use Rattle.wenc_base.specs.Prelude.{RecType, Single, Rec, Func, Struct, Array};
ghost use Rattle.wenc_base.specs.Prelude.{func_type_view, sub_view, rec_type, rec_type_view};
ghost use Rattle.wenc_base.specs.Prelude.{standing, list, Ends, EndsListed, EndsLists, MakesWhole};
ghost use Rattle.wenc_base.specs.Prelude.{◌▸◌, val_type, composite_type};

use super::guard::Guarded;
use super::{ArrayType, ByteTypes, FieldType, FuncType, GroupTree, StorageType, SubType, ValType};
use crate::encode::{ByRef, Prefix};
use crate::fault::Fault;
use crate::parent::Parent;
use std::alloc::Allocator;

/// Writes one core type, or a group of mutually recursive ones, into its parent: a holder, or a
/// type, a section or a builder that contains one (WebAssembly 3.0, binary format, "Recursive
/// Types").
///
/// Each of its calls ends the type. If the call fails, or the encoder is dropped, the parent stays
/// unfinished until its `discard_unfinished` discards the type.
///
/// ```
/// let mut holder = Holder::new(alloc);
/// holder.open(&[])?;
/// let encoder = CoreTypeEncoder::new(&mut holder, true);
/// encoder.function([ValType::I32].into_iter(), [].into_iter())?;
/// ```
///
/// # Errors
///
/// Each call fails with `TooMany` if a list has more than 4294967295 values, and with `TooLarge` if
/// the size of the parent would exceed 4294967295.
#[derive(Drop)]
pub struct CoreTypeEncoder<'a, L: Parent> {
    parent: &'a mut L,
    guard: bool,
    ghost unfinished: { L.finished parent.now ≡ false },
    ghost whole: { (g : RecType)
        → MakesWhole L.is_whole L.appended parent.now (standing guard g) },
}

impl<'a, L: Parent> CoreTypeEncoder<'a, L> {
    /// Creates an encoder for the member that `parent` has just opened. Each core type has to be a
    /// complete member.
    ///
    /// With `guard`, a type that isn't final is preceded by a byte `00`, as it is in a component.
    pub fn new(parent: &'a mut L, guard: bool) -> Self
        requires opened { L.opened parent.old ≡ true }
        requires whole { (g : RecType)
            → MakesWhole L.is_whole L.appended parent.old (standing guard g) }
        ensures same_reference { result.parent.ghost_name ≡ parent.entry.ghost_name }
        ensures now { result.parent.now ≡ parent.old }
        ensures guard { result.guard ≡ guard }
    {
        CoreTypeEncoder { parent, guard }
    }

    /// Writes a final function type with these parameters and results.
    pub fn function<P, R>(self, params: P, results: R) -> Result<(), Fault>
    where
        P: Iterator<Item = ValType> + Drop,
        R: Iterator<Item = ValType> + Drop,
        requires can_params { P.can_next params }
        requires params_end { IsFinite (P.remaining params) }
        requires can_results { R.can_next results }
        requires results_end { IsFinite (R.remaining results) }
        ensures { EndsLists L.appended L.ended L.refuses P.next_gives params R.next_gives results
            self.entry.parent.now self.exit.0.now result
            (λ ts. 0x60 ▸ list val_type ts) (list val_type) }
    {
        self.parent.append_list(&[0x60], params)?;
        self.parent.end_with_list(&[], results)
    }

    /// Writes a final function type with these parameters and results.
    pub fn byte_function(self, params: &ByteTypes, results: &ByteTypes) -> Result<(), Fault>
        ensures { Ends L.appended L.ended L.refuses self.entry.parent.now self.exit.0.now result
            (composite_type (Func params.now results.now)) }
    {
        let lists = (ByRef(params), ByRef(results));
        self.parent.end_with(&Prefix(0x60, &lists))
    }

    /// Writes a final function type with these parameters and results.
    pub fn slice_function(self, params: &[ValType], results: &[ValType]) -> Result<(), Fault>
        ensures { Ends L.appended L.ended L.refuses self.entry.parent.now self.exit.0.now result
            (composite_type (Func params.now results.now)) }
    {
        self.parent.end_with(&Prefix(0x60, &(params, results)))
    }

    /// Writes this function type, as a final one.
    pub fn func_type<A: Allocator>(self, ty: &FuncType<A>) -> Result<(), Fault>
        ensures { Ends L.appended L.ended L.refuses self.entry.parent.now self.exit.0.now result
            (composite_type (func_type_view ty.now)) }
    {
        self.parent.end_with(ty)
    }

    /// Writes a final array type with elements of this storage type, mutable or not.
    pub fn array(self, ty: &StorageType, mutable: bool) -> Result<(), Fault>
        ensures { Ends L.appended L.ended L.refuses self.entry.parent.now self.exit.0.now result
            (composite_type (Array (record { element_type = ty.now; mutable = mutable }))) }
    {
        let element_type = *ty;
        self.parent.end_with(&ArrayType(FieldType {
            element_type,
            mutable,
        }))
    }

    /// Writes a final structure type with these fields.
    pub fn struct_<I: Iterator<Item = FieldType> + Drop>(self, fields: I) -> Result<(), Fault>
        requires can { I.can_next fields }
        requires ends { IsFinite (I.remaining fields) }
        ensures { EndsListed L.appended L.ended L.refuses I.next_gives fields
            self.entry.parent.now self.exit.0.now result
            (λ fs. composite_type (Struct fs)) }
    {
        self.parent.end_with_list(&[0x5f], fields)
    }

    /// Writes a final structure type with these fields.
    pub fn slice_struct(self, fields: &[FieldType]) -> Result<(), Fault>
        ensures { Ends L.appended L.ended L.refuses self.entry.parent.now self.exit.0.now result
            (composite_type (Struct fields.now)) }
    {
        self.parent.end_with(&Prefix(0x5f, &fields))
    }

    /// Writes this type.
    pub fn subtype<A: Allocator>(self, ty: &SubType<A>) -> Result<(), Fault>
        ensures { Ends L.appended L.ended L.refuses self.entry.parent.now self.exit.0.now result
            (standing self.entry.guard (Single (sub_view ty.now))) }
    {
        let guard = self.guard;
        self.parent.end_with(&Guarded(guard, ty))
    }

    /// Writes a group of types, which may refer to each other. It is one core type of the parent,
    /// and its types have no guards.
    pub fn rec<'b, A: Allocator + 'b, I>(self, types: I) -> Result<(), Fault>
    where
        I: Iterator<Item = &'b SubType<A>> + Drop,
        requires can { I.can_next types }
        requires ends { IsFinite (I.remaining types) }
        ensures { EndsListed L.appended L.ended L.refuses I.next_gives types
            self.entry.parent.now self.exit.0.now result
            (λ ts. rec_type (Rec (map (λ s. sub_view s.now) ts))) }
    {
        self.parent.end_with_list(&[0x4e], types)
    }

    /// Writes the type or group of types of this tree.
    pub fn group<A: Allocator>(self, ty: &GroupTree<A>) -> Result<(), Fault>
        ensures { Ends L.appended L.ended L.refuses self.entry.parent.now self.exit.0.now result
            (standing self.entry.guard (rec_type_view ty.now)) }
    {
        let guard = self.guard;
        self.parent.end_with(&Guarded(guard, ty))
    }
}
