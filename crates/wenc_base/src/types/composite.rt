//! Types of functions, arrays and structures.
ghost use Rattle.std.specs.Prelude.{◌≡◌, IfOk, IfErr, refl};
ghost use Rattle.std.specs.Iterator.{IsFinite};
ghost use Rattle.std.specs.Iterator.Runs.{WholeRun};
ghost use Rattle.wenc_base.specs.Prelude.{params_of, results_of, IsMemory, composite_type};
ghost use Rattle.wenc_base.specs.Prelude.{func_type_view, composite_type_lawful, same_params};
ghost use Rattle.wenc_base.specs.Prelude.{same_results, array_view, same_element, structure_view};
ghost use Rattle.wenc_base.specs.Prelude.{same_fields, composite_view, by_kind, as_seen};
ghost use Rattle.wenc_base.specs.Prelude.{serves_itself};

use super::ValType;
use super::storage::FieldType;
use crate::delimited::{Delimited, DelimitedEq};
use crate::encode::{Encode, Prefix};
use crate::fault::Fault;
use std::alloc::{Allocator, Global};

/// The type of a function (WebAssembly 3.0, binary format, "Composite Types").
#[derive(Drop)]
#[derive_where(PartialEq, Eq)]
pub struct FuncType<A: Allocator = Global> {
    params: Vec<ValType, A>,
    results: Vec<ValType, A>,
}

impl<A: Allocator> FuncType<A> {
    /// Creates a function type with these parameters and results.
    ///
    /// More than 4294967295 of either can't be encoded.
    ///
    /// # Errors
    ///
    /// Fails only if an allocation fails.
    pub fn new<P: Iterator<Item = ValType> + Drop, R: Iterator<Item = ValType> + Drop>(
        alloc: A,
        params: P,
        results: R,
    ) -> Result<Self, Fault>
    where
        A: Copy,
        requires can_params { P.can_next params }
        requires params_end { IsFinite (P.remaining params) }
        requires can_results { R.can_next results }
        requires results_end { IsFinite (R.remaining results) }
        ensures params { IfOk result (λ f. WholeRun P.next_gives params (λ run.
            params_of f ≡ run.items)) }
        ensures results { IfOk result (λ f. WholeRun R.next_gives results (λ run.
            results_of f ≡ run.items)) }
        ensures refused { IfErr result IsMemory }
    {
        let params = params.collect(alloc)?;
        let results = results.collect(alloc)?;
        Ok(FuncType { params, results })
    }

    /// Creates a function type from lists of parameters and results. Does not allocate.
    ///
    /// More than 4294967295 of either can't be encoded.
    pub fn from_lists(params: Vec<ValType, A>, results: Vec<ValType, A>) -> Self
        ensures { (params_of result ≡ params.items) × (results_of result ≡ results.items) }
    {
        FuncType { params, results }
    }

    /// Returns the types of the parameters, in order.
    pub fn params(&self) -> &[ValType]
        ensures { result.now ≡ params_of self.now }
    {
        self.params.as_slice()
    }

    /// Returns the types of the results, in order.
    pub fn results(&self) -> &[ValType]
        ensures { result.now ≡ results_of self.now }
    {
        self.results.as_slice()
    }
}

/// Encodes as a composite type.
impl<A: Allocator> Encode for FuncType<A> {
    ghost piece = { λ f. composite_type (func_type_view f) };

    fn encode<B: Allocator>(&self, sink: &mut Vec<u8, B>) -> Result<(), Fault> {
        Prefix(0x60, &(self.params(), self.results())).encode(sink)
    }
}

impl<A: Allocator> Delimited for FuncType<A> {
    ghost reads_back = { as_seen func_type_view composite_type_lawful };

    ghost written = { λ _. serves_itself };
}

impl<A: Allocator> DelimitedEq for FuncType<A> {
    ghost alike = { λ laws a b e. rw (same_params a b e, same_results a b e) (laws.refl b) };
}

/// The type of an array, given by its element type (WebAssembly 3.0, binary format, "Composite
/// Types").
#[derive(Clone, Copy, PartialEq, Eq)]
pub struct ArrayType(pub FieldType);

/// Encodes as a composite type.
impl Encode for ArrayType {
    ghost piece = { λ a. composite_type (array_view a) };

    fn encode<A: Allocator>(&self, sink: &mut Vec<u8, A>) -> Result<(), Fault> {
        Prefix(0x5e, &self.0).encode(sink)
    }
}

impl Delimited for ArrayType {
    ghost reads_back = { as_seen array_view composite_type_lawful };

    ghost written = { λ _. serves_itself };
}

impl DelimitedEq for ArrayType {
    ghost alike = { λ laws a b e. rw (same_element a b e) (laws.refl b) };
}

/// The type of a structure (WebAssembly 3.0, binary format, "Composite Types").
#[derive(Drop)]
#[derive_where(PartialEq, Eq)]
pub struct StructType<A: Allocator = Global> {
    /// The types of the fields, in order. More than 4294967295 can't be encoded.
    pub fields: Vec<FieldType, A>,
}

/// Encodes as a composite type.
impl<A: Allocator> Encode for StructType<A> {
    ghost piece = { λ s. composite_type (structure_view s) };

    fn encode<B: Allocator>(&self, sink: &mut Vec<u8, B>) -> Result<(), Fault> {
        Prefix(0x5f, &self.fields.as_slice()).encode(sink)
    }
}

impl<A: Allocator> Delimited for StructType<A> {
    ghost reads_back = { as_seen structure_view composite_type_lawful };

    ghost written = { λ _. serves_itself };
}

impl<A: Allocator> DelimitedEq for StructType<A> {
    ghost alike = { λ laws a b e. rw (same_fields a b e) (laws.refl b) };
}

/// The type of a function, an array or a structure (WebAssembly 3.0, binary format, "Composite
/// Types").
#[derive(Drop)]
#[derive_where(PartialEq, Eq)]
pub enum CompositeType<A: Allocator = Global> {
    /// A function.
    Func(FuncType<A>),
    /// An array.
    Array(ArrayType),
    /// A structure.
    Struct(StructType<A>),
}

impl<A: Allocator> Encode for CompositeType<A> {
    ghost piece = { λ c. composite_type (composite_view c) };

    fn encode<B: Allocator>(&self, sink: &mut Vec<u8, B>) -> Result<(), Fault> {
        match self {
            CompositeType::Func(ty) => ty.encode(sink),
            CompositeType::Array(ty) => ty.encode(sink),
            CompositeType::Struct(ty) => ty.encode(sink),
        }
    }
}

impl<A: Allocator> Delimited for CompositeType<A> {
    ghost reads_back = { as_seen composite_view composite_type_lawful };

    ghost written = { λ _. serves_itself };
}

impl<A: Allocator> DelimitedEq for CompositeType<A> {
    ghost use Rattle.wenc_base.specs.declared.types.composite.CompositeType.TheVariants
        as composites;

    ghost alike = { λ laws. by_kind _
        (λ f g e. rw (same_params f g e, same_results f g e) (laws.refl (composites.Func g)))
        (λ a b e. rw (same_element a b e) (laws.refl (composites.Array b)))
        (λ s t e. rw (same_fields s t e) (laws.refl (composites.Struct t))) };
}
