//! The lines of faults: each is printed as it is displayed.

use deku::DekuError::{self, Assertion, IdVariantNotFound, Incomplete, InvalidParam, Io, Parse};
use deku::error::NeedSize;
use deku_program::tell_fault;
use std::alloc::Global;
use std::io;
use std::io::ErrorKind;
use std::process::Abort;

// Each kind of io error.
const KINDS: [ErrorKind; 42] = [
    ErrorKind::NotFound,
    ErrorKind::PermissionDenied,
    ErrorKind::ConnectionRefused,
    ErrorKind::ConnectionReset,
    ErrorKind::HostUnreachable,
    ErrorKind::NetworkUnreachable,
    ErrorKind::ConnectionAborted,
    ErrorKind::NotConnected,
    ErrorKind::AddrInUse,
    ErrorKind::AddrNotAvailable,
    ErrorKind::NetworkDown,
    ErrorKind::BrokenPipe,
    ErrorKind::AlreadyExists,
    ErrorKind::WouldBlock,
    ErrorKind::NotADirectory,
    ErrorKind::IsADirectory,
    ErrorKind::DirectoryNotEmpty,
    ErrorKind::ReadOnlyFilesystem,
    ErrorKind::FilesystemLoop,
    ErrorKind::StaleNetworkFileHandle,
    ErrorKind::InvalidInput,
    ErrorKind::InvalidData,
    ErrorKind::TimedOut,
    ErrorKind::WriteZero,
    ErrorKind::StorageFull,
    ErrorKind::NotSeekable,
    ErrorKind::QuotaExceeded,
    ErrorKind::FileTooLarge,
    ErrorKind::ResourceBusy,
    ErrorKind::ExecutableFileBusy,
    ErrorKind::Deadlock,
    ErrorKind::CrossesDevices,
    ErrorKind::TooManyLinks,
    ErrorKind::InvalidFilename,
    ErrorKind::ArgumentListTooLong,
    ErrorKind::Interrupted,
    ErrorKind::Unsupported,
    ErrorKind::UnexpectedEof,
    ErrorKind::OutOfMemory,
    ErrorKind::InProgress,
    ErrorKind::Other,
    ErrorKind::Uncategorized,
];

// The line of a fault, and what the fault is displayed as.
fn expect_displayed(rt: &impl Abort, alloc: Global, fault: DekuError) -> io::Result<()> {
    let mut told: Vec<u8> = Vec::new(alloc);
    tell_fault(&mut told, &fault, &[", in ", "words"])?;
    let displayed = format!(in alloc; "error: {fault}, in words\n")?;
    assert!(rt; told.as_slice() == displayed.as_bytes(), "{displayed}");
    Ok(())
}

#[test]
fn of_kinds_are_displayed(rt: HostRuntime) -> io::Result<()> {
    for kind in &KINDS {
        expect_displayed(&rt, rt.alloc(), Io(*kind))?;
    }
    Ok(())
}

// A fault of each other form.
fn others() -> [DekuError; 6] {
    [
        Incomplete(NeedSize::new(12)),
        Incomplete(NeedSize::new(usize::MAX)),
        Parse("too much data"),
        InvalidParam("value outside type"),
        Assertion("version"),
        IdVariantNotFound,
    ]
}

#[test]
fn of_others_are_displayed(rt: HostRuntime) -> io::Result<()> {
    for fault in &others() {
        expect_displayed(&rt, rt.alloc(), *fault)?;
    }
    Ok(())
}
