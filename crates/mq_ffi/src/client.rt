//! A client behind a handle. Each function takes the client out, calls it, and puts it back.

ghost use Rattle.std.specs.Prelude.{◌≡◌, ◌⊎◌, ◌↔◌, ◌<◌, IsTrue, true, None, Some, IsSome, Ok, Err, IfOk, IfErr, IfSome, OnOk, OnErr};
ghost use Rattle.mq_ffi.specs.Prelude.{Connects, Drops, IsIdle, Leaves, Pings, Publishes, Receives, Saves, Subscribes, TakesEvent, TakesOutput, Unsubscribes, IsLoginOf, IsWillOf, AreLoginParts, AreWillParts, IsArgumentFault, Starts, AreOptions, Calls, Codes, HasOptions, IsNextTick, Makes, Passes, call_code, closed_code, count_code};

use crate::codes::{call_code, closed_code, id_code, size_code};
use crate::handle::Handle;
use mq_embedded::{CallFault, Client, Event, bounds, login, text, will};
use mq_end::ClientConfig;
use mq_packet::{Login, Will};
use std::alloc::Global;
use std::mem;

// The options of a client.
fn config(
    alloc: Global,
    id: &[u8],
    keep_alive: u16,
    max_packet: u32,
    capacity: u16,
    window: u16,
    login: Option<Login>,
    will: Option<Will>,
) -> Result<ClientConfig, CallFault>
    ensures capacity { IfOk result (λ config. 0 < config.capacity) }
    ensures window { IfOk result (λ config. IfSome config.window (λ n. 0 < n)) }
    ensures options { IfOk result (HasOptions id.now keep_alive max_packet capacity window) }
    ensures login { IfOk result (λ config. config.login ≡ login) }
    ensures will { IfOk result (λ config. config.will ≡ will) }
    ensures refused { IfErr result (IsArgumentFault (AreOptions id.now max_packet capacity)) }
{
    if capacity == 0 {
        drop(login);
        drop(will);
        return Err(CallFault::Argument);
    }
    let limits = bounds(max_packet)?;
    let id = text(alloc, id)?;
    Ok(ClientConfig {
        id,
        keep_alive,
        will,
        login,
        limits,
        capacity,
        window: if window == 0 { None } else { Some(window) },
    })
}

fn boxed(alloc: Global, client: Client) -> Result<Box<Client>, CallFault>
    ensures value { IfOk result (λ b. b.value ≡ client) }
    ensures memory { IfErr result (λ why. why ≡ CallFault.Memory) }
{
    match Box::new(alloc, client) {
        Ok(client) => Ok(client),
        Err(_) => Err(CallFault::Memory),
    }
}

// Puts a client with these options behind the handle.
fn start(
    alloc: Global,
    config: ClientConfig,
    saved: &[u8],
    handle: &mut Handle,
) -> Result<(), CallFault>
    requires capacity { 0 < config.capacity }
    requires window { IfSome config.window (λ n. 0 < n) }
    ensures there { OnOk result (IsSome handle.new.value) }
    ensures starts { OnOk result (IfSome handle.new.value (λ client. Starts config saved.now (Ok client))) }
    ensures refused { IfErr result (λ why. (why ≡ CallFault.Memory) ⊎ Starts config saved.now (Err why)) }
    ensures err { OnErr result (handle.new.value ≡ handle.old.value) }
{
    let client = Client::start(alloc, config, saved)?;
    let client = boxed(alloc, client)?;
    *handle = Handle::of(client);
    Ok(())
}

// The client of a handle, which is empty then.
fn taken(alloc: Global, handle: &mut Handle) -> Box<Client>
    requires { IsSome handle.old.value }
    ensures client { handle.old.value ≡ Some result.value }
    ensures empty { handle.new.value ≡ None }
{
    let taken = mem::replace(handle, Handle::empty());
    taken.into_box(alloc)
}

/// Makes a client. It has no session if `saved` has no bytes. A window of 0 sets no limit.
#[unsafe(no_mangle)]
pub extern "C" fn poskvari_client_new(
    alloc: Global,
    id: &[u8],
    keep_alive: u16,
    max_packet: u32,
    capacity: u16,
    window: u16,
    has_user_name: bool,
    user_name: &[u8],
    has_password: bool,
    password: &[u8],
    has_will: bool,
    will_topic: &[u8],
    will_payload: &[u8],
    will_qos: u8,
    will_retain: bool,
    saved: &[u8],
    handle: &mut Handle,
) -> i32
    ensures { Codes call_code (Makes (λ config. HasOptions id.now keep_alive max_packet capacity window config
        × IsLoginOf has_user_name user_name.now has_password password.now config.login
        × IsWillOf has_will will_topic.now will_payload.now will_qos will_retain config.will)
        (AreOptions id.now max_packet capacity
        × AreLoginParts has_user_name user_name.now has_password password.now
        × (has_will ≡ true → AreWillParts will_topic.now will_payload.now will_qos))
        saved.now handle.old.value handle.new.value) result }
{
    let login = match login(alloc, has_user_name, user_name, has_password, password) {
        Ok(login) => login,
        Err(fault) => return call_code(Err(fault)),
    };
    let will = match will(
        alloc,
        has_will,
        will_topic,
        will_payload,
        will_qos,
        will_retain,
    ) {
        Ok(will) => will,
        Err(fault) => return call_code(Err(fault)),
    };
    let config = config(
        alloc, id, keep_alive, max_packet, capacity, window, login, will,
    );
    match config {
        Ok(config) => call_code(start(alloc, config, saved, handle)),
        Err(fault) => call_code(Err(fault)),
    }
}

/// Frees a client. The handle is empty then.
#[unsafe(no_mangle)]
pub extern "C" fn poskvari_client_free(alloc: Global, handle: &mut Handle)
    requires { IsSome handle.old.value }
    ensures { handle.new.value ≡ None }
{
    let client = taken(alloc, handle);
    drop(client);
}

/// Begins a connection: queues CONNECT (3.1).
#[unsafe(no_mangle)]
pub extern "C" fn poskvari_client_connect(
    alloc: Global,
    handle: &mut Handle,
    now: u64,
    clean: bool,
) -> i32
    requires { IsSome handle.old.value }
    ensures { Calls call_code (Connects now clean) handle.old.value handle.new.value result }
{
    let mut client = taken(alloc, handle);
    let code = call_code(client.connect(now, clean));
    *handle = Handle::of(client);
    code
}

/// Processes received bytes. Returns 0, the number of the reason if the end closed, or an error.
#[unsafe(no_mangle)]
pub extern "C" fn poskvari_client_receive(
    alloc: Global,
    handle: &mut Handle,
    now: u64,
    bytes: &[u8],
) -> i32
    requires { IsSome handle.old.value }
    ensures { Calls closed_code (Receives bytes.now) handle.old.value handle.new.value result }
{
    let mut client = taken(alloc, handle);
    let code = closed_code(client.receive(now, bytes));
    *handle = Handle::of(client);
    code
}

/// Moves pending output to the buffer, and returns its number of bytes.
#[unsafe(no_mangle)]
pub extern "C" fn poskvari_client_output(
    alloc: Global,
    handle: &mut Handle,
    out: &mut [u8],
) -> usize
    requires { IsSome handle.old.value }
    ensures { Passes (λ old new. TakesOutput result old new out.old out.new) handle.old.value handle.new.value }
{
    let mut client = taken(alloc, handle);
    let code = client.take_output(out);
    *handle = Handle::of(client);
    code
}

/// Publishes a message. Returns its packet identifier, 0 for QoS 0, or an error.
#[unsafe(no_mangle)]
pub extern "C" fn poskvari_client_publish(
    alloc: Global,
    handle: &mut Handle,
    topic: &[u8],
    payload: &[u8],
    qos: u8,
    retain: bool,
) -> i32
    requires { IsSome handle.old.value }
    ensures { Calls count_code (Publishes topic.now payload.now qos retain) handle.old.value handle.new.value result }
{
    let mut client = taken(alloc, handle);
    let code = id_code(client.publish(topic, payload, qos, retain));
    *handle = Handle::of(client);
    code
}

/// Subscribes. Returns the packet identifier, or an error.
#[unsafe(no_mangle)]
pub extern "C" fn poskvari_client_subscribe(
    alloc: Global,
    handle: &mut Handle,
    filter: &[u8],
    qos: u8,
) -> i32
    requires { IsSome handle.old.value }
    ensures { Calls count_code (Subscribes filter.now qos) handle.old.value handle.new.value result }
{
    let mut client = taken(alloc, handle);
    let code = id_code(client.subscribe(filter, qos));
    *handle = Handle::of(client);
    code
}

/// Unsubscribes. Returns the packet identifier, or an error.
#[unsafe(no_mangle)]
pub extern "C" fn poskvari_client_unsubscribe(
    alloc: Global,
    handle: &mut Handle,
    filter: &[u8],
) -> i32
    requires { IsSome handle.old.value }
    ensures { Calls count_code (Unsubscribes filter.now) handle.old.value handle.new.value result }
{
    let mut client = taken(alloc, handle);
    let code = id_code(client.unsubscribe(filter));
    *handle = Handle::of(client);
    code
}

/// Takes the next event; its kind is 0 if there is none.
#[unsafe(no_mangle)]
pub extern "C" fn poskvari_client_next_event(
    alloc: Global,
    handle: &mut Handle,
    event: &mut Event,
    out: &mut [u8],
) -> i32
    requires { IsSome handle.old.value }
    ensures { Calls call_code (λ old new r. TakesEvent old.events new.events event.new out.old out.new r
        × (new.end ≡ old.end)) handle.old.value handle.new.value result }
{
    let mut client = taken(alloc, handle);
    let code = call_code(client.next_event(event, out));
    *handle = Handle::of(client);
    code
}

/// Queues a PINGREQ if it is due.
#[unsafe(no_mangle)]
pub extern "C" fn poskvari_client_tick(alloc: Global, handle: &mut Handle, now: u64) -> i32
    requires { IsSome handle.old.value }
    ensures { Calls call_code (Pings now) handle.old.value handle.new.value result }
{
    let mut client = taken(alloc, handle);
    let code = call_code(client.tick(now));
    *handle = Handle::of(client);
    code
}

/// Queues DISCONNECT, and closes (3.14).
#[unsafe(no_mangle)]
pub extern "C" fn poskvari_client_disconnect(alloc: Global, handle: &mut Handle) -> i32
    requires { IsSome handle.old.value }
    ensures { Calls call_code Leaves handle.old.value handle.new.value result }
{
    let mut client = taken(alloc, handle);
    let code = call_code(client.disconnect());
    *handle = Handle::of(client);
    code
}

/// Writes the saved form of the session. Returns its number of bytes, or an error.
#[unsafe(no_mangle)]
pub extern "C" fn poskvari_client_save(alloc: Global, handle: &mut Handle, out: &mut [u8]) -> isize
    requires { IsSome handle.old.value }
    ensures { Calls count_code (λ old new r. Saves old out.old out.new r × (new ≡ old)) handle.old.value handle.new.value result }
{
    let client = taken(alloc, handle);
    let code = size_code(client.save(out));
    *handle = Handle::of(client);
    code
}

/// Whether no sent message waits for an acknowledgement.
#[unsafe(no_mangle)]
pub extern "C" fn poskvari_client_is_idle(alloc: Global, handle: &mut Handle) -> bool
    requires { IsSome handle.old.value }
    ensures { Passes (λ old new. (IsTrue result ↔ IsIdle old) × (new ≡ old)) handle.old.value handle.new.value }
{
    let client = taken(alloc, handle);
    let code = client.is_idle();
    *handle = Handle::of(client);
    code
}

/// The time from which a tick does something, or the largest number.
#[unsafe(no_mangle)]
pub extern "C" fn poskvari_client_next_deadline(alloc: Global, handle: &mut Handle) -> u64
    requires { IsSome handle.old.value }
    ensures { Passes (λ old new. IsNextTick old result × (new ≡ old)) handle.old.value handle.new.value }
{
    let client = taken(alloc, handle);
    let deadline = client.next_deadline().unwrap_or(u64::MAX);
    *handle = Handle::of(client);
    deadline
}

/// Reports that the connection is lost.
#[unsafe(no_mangle)]
pub extern "C" fn poskvari_client_dropped(alloc: Global, handle: &mut Handle)
    requires { IsSome handle.old.value }
    ensures { Passes Drops handle.old.value handle.new.value }
{
    let mut client = taken(alloc, handle);
    client.dropped();
    *handle = Handle::of(client);
}
