//! A value on the heap, as its address.

ghost use Rattle.std.specs.Prelude.{◌≡◌, Option, None, Some, IsSome};
ghost use Rattle.mq_ffi.specs.Prelude.{coded_option, the_row, WithEvents, boxed};

use crate::raw_box::RawBox;
use mq_embedded::Client;
use std::alloc::Global;
use std::marker::Model;
use std::ptr;

/// A value that the library keeps on the heap for its caller, or nothing. The caller sees an
/// address, which it must neither follow nor copy, and which is null if there is nothing.
#[repr(C)]
#[derive(Drop)]
pub struct Handle {
    at: *mut u8,
    /// The value, if there is one.
    pub ghost value: { Option WithEvents } by { coded_option the_row.coded },
}

impl Model for Handle {
    ghost also_owns = { λ h. boxed the_row h.at h.value };
}

impl Handle {
    /// Nothing.
    pub fn empty() -> Handle
        ensures { result.value ≡ None }
    {
        Handle {
            at: ptr::null_mut(),
        }
    }

    /// The handle of a value on the heap.
    pub(crate) fn of(value: Box<Client>) -> Handle
        ensures { result.value ≡ Some value.value }
    {
        Handle::of_raw(RawBox::of(value))
    }

    fn of_raw(raw: RawBox<Client, Global>) -> Handle
        ensures { result.value ≡ Some raw.value }
    {
        let RawBox { at, alloc: _ } = raw;
        Handle { at: at as *mut u8 }
    }

    /// The value on the heap.
    pub(crate) fn into_box(self, alloc: Global) -> Box<Client>
        requires { IsSome self.value }
        ensures { self.value ≡ Some result.value }
    {
        self.into_raw(alloc).into_box()
    }

    fn into_raw(self, alloc: Global) -> RawBox<Client, Global>
        requires { IsSome self.value }
        ensures { self.value ≡ Some result.value }
    {
        let Handle { at } = self;
        RawBox {
            at: at as *mut Client,
            alloc,
        }
    }
}
