//! The audit of a text.
ghost use Rattle.std.specs.Prelude.{IfOk, IfErr};
ghost use Rattle.iss_audit.specs.Exports.{IsCertifiedText};
ghost use Rattle.iss_audit.specs.Refusals.{IsRefused};

use crate::checking::check_epochs;
use crate::errors::AuditError;
use crate::exports::Export;
use crate::reading::read_export;
use iss_keys::Directory;
use std::alloc::Global;

/// The certified log with this text. Its keys are those of its header.
///
/// # Errors
///
/// `BadLine` if no export has this text: the first bad line, and the first reason for it. `BadEpoch` if an export has
/// it: the first epoch that is not certified, and the first reason for it. `NoMemory` if out of memory.
// rule: Audit: The first bad line is named before any bad epoch
pub fn check_text(alloc: Global, bytes: &[u8]) -> Result<Export, AuditError>
    ensures ok { IfOk result (IsCertifiedText bytes.now) }
    ensures bad { IfErr result (IsRefused bytes.now) }
{
    let export = read_export(alloc, bytes)?;
    let setup = &export.setup;
    let directory = match Directory::make(alloc, setup.n, setup.clients, setup.keys as u8) {
        Ok(directory) => directory,
        Err(_) => return Err(AuditError::NoMemory),
    };
    check_epochs(alloc, setup, &directory, export.epochs.as_slice())?;
    Ok(export)
}
