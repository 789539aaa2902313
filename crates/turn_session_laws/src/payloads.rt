//! Laws of data of peers.

ghost use Rattle.turn_session_laws.specs.DataLaws.{DataIsTheClients};

/// Data of peers is the client's. A packet for a peer is the one that the client makes, and ChannelData is answered as the client
/// answers it: it changes the client and when something was received last, and nothing else is noted of it, but the use of the peer if
/// peers may be idle. Of a stream to the server this holds of each frame. To a client by itself a message may follow ChannelData in
/// what is received at a time: this is about bytes of which the client says that they are data, or ignores them.
pub fn data_is_the_clients()
    ensures { DataIsTheClients }
{}
