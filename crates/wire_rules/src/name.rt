//! The commands that this protocol knows.

/// The command of a message that is no other one.
#[derive(Clone, Copy, Debug, PartialEq, Eq)]
pub enum Name {
    Version,
    Verack,
    WtxidRelay,
    SendTxRcncl,
    ReqRecon,
    Sketch,
    ReqSketchExt,
    ReconcilDiff,
    Inv,
    GetData,
    NotFound,
    Tx,
    Ping,
    Pong,
}
