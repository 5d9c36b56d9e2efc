//! A component around a core module.
use std::alloc::Allocator;
use wenc_base::{ExportKind, Fault};
use wenc_builder::ComponentBuilder;
use wenc_parts::ComponentExportKind;

/// Returns a component around a core module that exports the function "run", without parameters or
/// results: the component exports that function.
pub fn wrapped<A: Allocator + Copy>(alloc: A, module: &[u8]) -> Result<Vec<u8, A>, Fault> {
    let mut builder = ComponentBuilder::new(alloc)?;
    wrap(&mut builder, module)?;
    builder.finish()
}

fn wrap<A: Allocator>(builder: &mut ComponentBuilder<A>, module: &[u8]) -> Result<u32, Fault> {
    let module = builder.core_module_raw(None, module)?;
    let instance = builder.core_instantiate(None, module, [].into_iter())?;
    let core_run = builder.core_alias_export(None, instance, "run", ExportKind::Func)?;
    let ty = run_type(builder)?;
    let run = builder.lift_func(None, core_run, ty, [].into_iter())?;
    builder.export("run".into(), ComponentExportKind::Func, run, None)
}

/// Adds the type of a function without parameters or results, and returns its index.
fn run_type<A: Allocator>(builder: &mut ComponentBuilder<A>) -> Result<u32, Fault> {
    match builder.type_function(None) {
        Ok((ty, mut function)) => {
            function.params([].into_iter())?;
            function.result(None)?;
            Ok(ty)
        }
        Err(fault) => Err(fault),
    }
}
