use aq_cert::Cert;
use aq_report::Verdict;
use sqlite_items::Items;

/// What is judged of an obligation.
#[derive(Drop)]
pub struct Judged {
    /// What is said of it.
    pub verdict: Verdict,
    /// Where it is verified one certificate for each of its worlds, in order, and else none.
    pub certs: Items<Cert>,
}
