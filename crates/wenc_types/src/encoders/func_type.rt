//! The encoder of function types.
ghost use Rattle.std.specs.Iterator.{IsFinite};
ghost use Rattle.std.specs.Prelude.{◌≡◌, ◌∷◌, [], true, false, map, OnOk, OnErr};
ghost use Rattle.wenc_base.specs.Prelude.{list, Extends, ExtendsListed, Ends, MakesWhole, byte};
ghost use Rattle.wenc_base.specs.Prelude.{behind_bytes};
ghost use Rattle.wenc_parts.specs.Prelude.{result_list};
ghost use Rattle.wenc_types.specs.Prelude.{Function, async_byte, function_type, labelled_type};
ghost use Rattle.wenc_types.specs.Prelude.{borrowed_labelled_type, BeforeParams, lead_from};
ghost use Rattle.wenc_types.specs.Prelude.{params_from, goes_on, RestMakesWhole};
ghost use Rattle.wenc_types.specs.declared.encoders.func_type.FuncStage.TheVariants as stages;

use wenc_base::{Fault, Parent, Verbatim};
use wenc_parts::{ComponentValType, ResultList};

/// The progress of a function type that is being written.
#[derive(Clone, Copy, Debug, PartialEq, Eq)]
pub enum FuncStage {
    /// Nothing is written.
    Start,
    /// The byte that says whether the function is asynchronous is written.
    Tagged,
    /// The parameters are written as well.
    Params,
    /// The type is complete.
    Done,
}

impl FuncStage {
    /// Returns the bytes that precede the parameters when they are written at this stage.
    fn lead(self) -> &'static [u8]
        ensures { result.now ≡ lead_from self }
    {
        match self {
            FuncStage::Start => &[0x40],
            _ => &[],
        }
    }
}

/// Writes the type of a function into its parent (component model, binary format, "Type
/// Definitions").
///
/// The calls come in this order: `async_`, which is optional, then `params`, then `result`, which
/// ends the type. A call that fails leaves what was written before it, and may be repeated. If the
/// encoder is dropped before `result` has succeeded, the parent stays unfinished until its
/// `discard_unfinished` discards the type.
///
/// ```
/// let string = ComponentValType::Primitive(PrimitiveValType::String);
/// let mut types = ComponentTypeSection::new(alloc);
/// let mut function = types.function()?;
/// function.params([("line", string)].into_iter())?;
/// function.result(None)?;
/// ```
///
/// # Errors
///
/// Each call fails with `TooMany` if a list has more than 4294967295 values, and with `TooLarge` if
/// the bytes of a name or the size of the parent would exceed 4294967295.
#[derive(Drop)]
pub struct ComponentFuncTypeEncoder<'a, L: Parent> {
    parent: &'a mut L,
    stage: FuncStage,
    ghost going_on: { goes_on stage (L.finished parent.now) ≡ true },
    ghost whole: { RestMakesWhole L.is_whole L.appended stage parent.now },
}

impl<'a, L: Parent> ComponentFuncTypeEncoder<'a, L> {
    /// Creates an encoder for the member that `parent` has just opened. Each function type has to
    /// be a complete member.
    pub fn new(parent: &'a mut L) -> Self
        requires opened { L.opened parent.old ≡ true }
        requires whole { (f : Function)
            → MakesWhole L.is_whole L.appended parent.old (function_type f) }
        ensures same_reference { result.parent.ghost_name ≡ parent.entry.ghost_name }
        ensures now { result.parent.now ≡ parent.old }
        ensures stage { result.stage ≡ stages.Start }
    {
        ComponentFuncTypeEncoder {
            parent,
            stage: FuncStage::Start,
        }
    }

    /// Returns the progress of the type.
    pub fn stage(&self) -> FuncStage
        ensures { result ≡ self.now.stage }
    {
        self.stage
    }

    /// Writes whether the function is asynchronous. Without this call it isn't.
    ///
    /// The stage has to be `Start`.
    pub fn async_(&mut self, is_async: bool) -> Result<(), Fault>
        requires { self.old.stage ≡ stages.Start }
        ensures same_reference { self.new.parent.ghost_name ≡ self.old.parent.ghost_name }
        ensures appended { Extends self.old.parent.now self.new.parent.now
            (L.appended self.old.parent.now (async_byte is_async ∷ [])) result
            (byte (async_byte is_async))
            (L.refuses self.old.parent.now (async_byte is_async ∷ [])) }
        ensures next { OnOk result (self.new.stage ≡ stages.Tagged) }
        ensures back { OnErr result (self.new.stage ≡ self.old.stage) }
    {
        let byte = if is_async { 0x43 } else { 0x40 };
        self.parent.append_value(&Verbatim(&[byte]))?;
        self.stage = FuncStage::Tagged;
        Ok(())
    }

    /// Writes the parameters, each a name and a type.
    ///
    /// The stage has to be `Start` or `Tagged`.
    pub fn params<'b, P>(&mut self, params: P) -> Result<(), Fault>
    where
        P: Iterator<Item = (&'b str, ComponentValType)> + Drop,
        requires stage { BeforeParams self.old.stage }
        requires can { P.can_next params }
        requires ends { IsFinite (P.remaining params) }
        ensures same_reference { self.new.parent.ghost_name ≡ self.old.parent.ghost_name }
        ensures appended { ExtendsListed P.next_gives params
            self.old.parent.now self.new.parent.now result
            (L.appended self.old.parent.now) (L.refuses self.old.parent.now)
            (λ ps. params_from self.old.stage (map borrowed_labelled_type ps)) }
        ensures next { OnOk result (self.new.stage ≡ stages.Params) }
        ensures back { OnErr result (self.new.stage ≡ self.old.stage) }
    {
        let stage = self.stage;
        // No further call is allowed if the iterator panics.
        self.stage = FuncStage::Done;
        match append_named(self.parent, stage.lead(), params) {
            Ok(()) => {
                self.stage = FuncStage::Params;
                Ok(())
            }
            Err(fault) => {
                self.stage = stage;
                Err(fault)
            }
        }
    }

    /// Writes the result: a value of this type, or none. This ends the type.
    ///
    /// The stage has to be `Params`.
    pub fn result(&mut self, ty: Option<ComponentValType>) -> Result<(), Fault>
        requires { self.old.stage ≡ stages.Params }
        ensures same_reference { self.new.parent.ghost_name ≡ self.old.parent.ghost_name }
        ensures ended { Ends L.appended L.ended L.refuses
            self.old.parent.now self.new.parent.now result (result_list ty) }
        ensures next { OnOk result (self.new.stage ≡ stages.Done) }
        ensures back { OnErr result (self.new.stage ≡ self.old.stage) }
    {
        self.parent.end_with(&ResultList(ty))?;
        self.stage = FuncStage::Done;
        Ok(())
    }
}

/// Appends these bytes to the open member of the parent, then the fields or parameters as a list.
fn append_named<'a, L: Parent, I>(parent: &mut L, lead: &[u8], values: I) -> Result<(), Fault>
where
    I: Iterator<Item = (&'a str, ComponentValType)> + Drop,
    requires unfinished { L.finished parent.old ≡ false }
    requires can { I.can_next values }
    requires ends { IsFinite (I.remaining values) }
    ensures { ExtendsListed I.next_gives values parent.old parent.new result
        (L.appended parent.old) (L.refuses parent.old)
        (λ vs. behind_bytes lead.now (list labelled_type (map borrowed_labelled_type vs))) }
{
    parent.append_list(lead, values)
}
