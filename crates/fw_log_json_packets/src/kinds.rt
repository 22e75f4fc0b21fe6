//! What the object of a packet of a usual kind has before its head.

ghost use Rattle.std.specs.Prelude.{◌≡◌, Some, codes};
ghost use Rattle.fw_log_json_packets.specs.Values.{code};

// The transaction code of a write request of a quadlet, and its name.
#[inline(always)]
pub(crate) fn write_quadlet() -> [u8; 47]
    ensures { result ≡ code (codes ",\"tcode\":") 0 (codes ",\"tcode_name\":") (Some (codes "write_quadlet_request")) }
{
    *b",\"tcode\":0,\"tcode_name\":\"write_quadlet_request\""
}

// That of a write request of a block.
#[inline(always)]
pub(crate) fn write_block() -> [u8; 45]
    ensures { result ≡ code (codes ",\"tcode\":") 1 (codes ",\"tcode_name\":") (Some (codes "write_block_request")) }
{
    *b",\"tcode\":1,\"tcode_name\":\"write_block_request\""
}

// That of a write response.
#[inline(always)]
pub(crate) fn write_reply() -> [u8; 40]
    ensures { result ≡ code (codes ",\"tcode\":") 2 (codes ",\"tcode_name\":") (Some (codes "write_response")) }
{
    *b",\"tcode\":2,\"tcode_name\":\"write_response\""
}

// That of a read request of a quadlet.
#[inline(always)]
pub(crate) fn read_quadlet() -> [u8; 46]
    ensures { result ≡ code (codes ",\"tcode\":") 4 (codes ",\"tcode_name\":") (Some (codes "read_quadlet_request")) }
{
    *b",\"tcode\":4,\"tcode_name\":\"read_quadlet_request\""
}

// That of a read response of a quadlet.
#[inline(always)]
pub(crate) fn read_reply() -> [u8; 47]
    ensures { result ≡ code (codes ",\"tcode\":") 6 (codes ",\"tcode_name\":") (Some (codes "read_quadlet_response")) }
{
    *b",\"tcode\":6,\"tcode_name\":\"read_quadlet_response\""
}

// That of a lock request.
#[inline(always)]
pub(crate) fn lock() -> [u8; 38]
    ensures { result ≡ code (codes ",\"tcode\":") 9 (codes ",\"tcode_name\":") (Some (codes "lock_request")) }
{
    *b",\"tcode\":9,\"tcode_name\":\"lock_request\""
}

// That of a lock response.
#[inline(always)]
pub(crate) fn lock_reply() -> [u8; 40]
    ensures { result ≡ code (codes ",\"tcode\":") 11 (codes ",\"tcode_name\":") (Some (codes "lock_response")) }
{
    *b",\"tcode\":11,\"tcode_name\":\"lock_response\""
}
