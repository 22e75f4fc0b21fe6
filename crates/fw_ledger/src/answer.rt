//! A response that ends a request.

use fw_account_tables::Asked;

/// A response of a controller's procedure, with the request that it ends.
#[derive(Clone, Copy)]
pub struct Answer {
    /// The ID of the node that asked.
    pub requester: u16,
    /// The request.
    pub asked: Asked,
    /// The response code: 0 if the response is complete.
    pub rcode: u8,
    /// The quadlet that it shows. None if the old value of a lock is not of four bytes.
    pub shown: Option<u32>,
    /// The word that the register of the account at the request's address has before the response. None if no register of
    /// the account stands there.
    pub due: Option<u32>,
}
