use contents::fault::RegisterFault;

// Which of two audited stores is refused, and why. Each store has a fault of its own.
#[derive(Clone, Copy, Debug, PartialEq, Eq)]
pub enum AuditFault<F, G> {
    First(RegisterFault<F>),
    Second(RegisterFault<G>),
}
