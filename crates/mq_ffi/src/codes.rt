//! The numbers that the functions return.

ghost use Rattle.std.specs.Prelude.{◌≡◌, ◌<◌, ◌^◌, IfOk, pos};
ghost use Rattle.mq_ffi.specs.Prelude.{call_code, call_fault_code, check_code, closed_code, count_code, encode_code, fault_code, match_code, reason_number};

use mq_bytes::{CheckFault, EncodeFault};
use mq_embedded::CallFault;
use mq_end::CloseReason;

fn fault_code(fault: CheckFault) -> i32
    ensures { result ≡ fault_code fault }
{
    match fault {
        CheckFault::Memory => -1,
        CheckFault::Text => -5,
        CheckFault::Name => -6,
        CheckFault::Filter => -7,
        CheckFault::Session => -8,
    }
}

/// 0, or the code of the fault.
pub(crate) fn check_code(checked: Result<(), CheckFault>) -> i32
    ensures { result ≡ check_code checked }
{
    match checked {
        Ok(()) => 0,
        Err(fault) => fault_code(fault),
    }
}

/// 1 or 0, or the code of the fault.
pub(crate) fn match_code(matched: Result<bool, CheckFault>) -> i32
    ensures { result ≡ match_code matched }
{
    match matched {
        Ok(yes) => i32::from(yes),
        Err(fault) => fault_code(fault),
    }
}

/// The number of bytes, or the code of the fault.
pub(crate) fn encode_code(encoded: Result<usize, EncodeFault>) -> isize
    requires { IfOk encoded (λ n. n < 2 ^ 63) }
    ensures { result ≡ encode_code encoded }
{
    match encoded {
        Ok(size) => size as isize,
        Err(EncodeFault::Argument) => -2,
        Err(EncodeFault::Room) => -3,
        Err(EncodeFault::TooLarge) => -4,
    }
}

fn call_fault_code(fault: CallFault) -> i32
    ensures { result ≡ call_fault_code fault }
{
    match fault {
        CallFault::Memory => -1,
        CallFault::Argument => -2,
        CallFault::Room => -3,
        CallFault::TooLarge => -4,
        CallFault::Session => -8,
        CallFault::NotConnected => -10,
        CallFault::Full => -11,
        CallFault::Events => -12,
        CallFault::AnotherClient => -13,
    }
}

/// 0, or the code of the fault.
pub(crate) fn call_code(called: Result<(), CallFault>) -> i32
    ensures { result ≡ call_code called }
{
    match called {
        Ok(()) => 0,
        Err(fault) => call_fault_code(fault),
    }
}

/// The identifier, or the code of the fault.
pub(crate) fn id_code(called: Result<u16, CallFault>) -> i32
    ensures { result ≡ count_code called }
{
    match called {
        Ok(id) => i32::from(id),
        Err(fault) => call_fault_code(fault),
    }
}

/// The number of bytes, or the code of the fault.
pub(crate) fn size_code(called: Result<usize, CallFault>) -> isize
    requires { IfOk called (λ n. n < 2 ^ 63) }
    ensures { result ≡ count_code called }
{
    match called {
        Ok(size) => size as isize,
        Err(fault) => call_fault_code(fault) as isize,
    }
}

/// 0 if the end is open, the number of the reason if it closed, or the code of the fault.
pub(crate) fn closed_code(called: Result<Option<CloseReason>, CallFault>) -> i32
    ensures { result ≡ closed_code called }
{
    match called {
        Ok(None) => 0,
        Ok(Some(reason)) => reason_number(reason),
        Err(fault) => call_fault_code(fault),
    }
}

fn reason_number(reason: CloseReason) -> i32
    ensures { result ≡ pos (reason_number reason) }
{
    match reason {
        CloseReason::Fault(_) => 1,
        CloseReason::Unexpected => 2,
        CloseReason::SessionLost => 4,
        CloseReason::KeepAlive => 5,
        CloseReason::Memory => 6,
        CloseReason::Left => 7,
        CloseReason::Window => 11,
        CloseReason::Refused(code) => 30 + i32::from(code.number()),
    }
}
