//! A command as a node of a table.

/// A command whose parts are nodes of the same table. They are named by their numbers, which are below the command's own.
#[derive(Clone, Copy)]
pub enum Node {
    /// The call of the rule set of this number.
    Call(u32),
    /// The first part and the second.
    Seq(u32, u32),
    /// The condition, `then` and `else`.
    If(u32, u32, u32),
    /// The condition, `then` and `else`.
    Try(u32, u32, u32),
    /// The body.
    Loop(u32),
    /// The first part and the second.
    Or(u32, u32),
    /// `skip`.
    Skip,
    /// `fail`.
    Fail,
    /// `break`.
    Break,
    /// The call of the procedure of this number, and the procedure's body.
    Proc(u32, u32),
}
