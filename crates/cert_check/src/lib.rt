//! Certificates of local determinism: for each place the sides that hold it, and a rank, so that it
//! can be checked site by site. The definitions stand in specs/.
#![tactic(auto)]

mod certificate;
mod certify;
mod checks;
mod entry;
mod entry_list;
mod laws;
mod listing;
mod looks;
mod ordered;
mod verdict;
mod verifying;

pub use certificate::Certificate;
pub use certify::{certificate_in_order, certificate_of};
pub use entry::Entry;
pub use entry_list::EntryList;
pub use laws::{law_certificate_of, law_certificates, law_chunks, law_verdict};
pub use ordered::OrderedCertificate;
pub use verdict::CertVerdict;
pub use verifying::verify;
