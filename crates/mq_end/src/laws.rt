//! The laws of the ends.

ghost use Rattle.mq_end.specs.Prelude.{SizeLaws, ReadyLaws, ClosingLaws, SoundLaws, WindowLaws, KeepAliveLaws};

/// After any list of packets and calls, the identifiers in use are 1 to 65,535, each is used once,
/// and at most the capacity are in use (2.3.1).
pub fn sound_laws()
    ensures { SoundLaws }
{}

/// A server's `tick` closes exactly a connected end whose client is late (3.1.2.10).
pub fn keep_alive_laws()
    ensures { KeepAliveLaws }
{}

/// When a connection closes, the session is unchanged, but its claimed identifiers are free. After
/// clean session 1 the session ends (3.1.2.4).
pub fn closing_laws()
    ensures { ClosingLaws }
{}

/// The size by which a packet is measured is the length of its fields (2.2.3).
pub fn size_laws()
    ensures { SizeLaws }
{}

/// After any list of packets and calls an end has the same receive window, and stores at most as
/// many identifiers as the window allows or as it stored before (4.3.3).
pub fn window_laws()
    ensures { WindowLaws }
{}

/// A server end that is ready for messages accepts them one after another unless an allocation
/// fails, also if packets that don't close it arrive in between.
pub fn ready_laws()
    ensures { ReadyLaws }
{}
