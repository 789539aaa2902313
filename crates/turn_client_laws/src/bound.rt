//! What only the server binds.

ghost use Rattle.std.specs.declared.net.socket_addr.SocketAddr.{SocketAddr};
ghost use Rattle.turn_client_api.specs.State.{State};
ghost use Rattle.turn_client_api.specs.declared.grant.DataConnection.{DataConnection};
ghost use Rattle.turn_client_api.specs.Steps.{Leaves};
ghost use Rattle.turn_client_api.specs.declared.call.Call.{Call};
ghost use Rattle.turn_client_laws.specs.LawsHandled.{IsBoundAt};
ghost use Rattle.turn_client_laws.specs.LawsBound.{IsBoundBy, IsBoundConnection, IsConnectedBy};

/// A data connection, and its stream, are bound only by an input that the call processes, even if memory
/// allocation fails: a whole message on the connection itself, which waits to be bound. The message is a
/// success that is signed with the client's credentials under the realm that it holds, and answers the
/// outstanding CONNECTION_BIND that was made for the connection (RFC 6062, section 4.3). What follows on
/// the stream is data of the connection's peer.
pub fn only_a_signed_success_binds()
    ensures stream { (call : Call) (s t : State) (local peer : SocketAddr) → Leaves call s t → IsBoundAt local peer t → IsBoundBy local peer call s }
    ensures connection { (call : Call) (s t : State) (c : DataConnection) → Leaves call s t → IsBoundConnection c t → IsConnectedBy c call s }
{}
