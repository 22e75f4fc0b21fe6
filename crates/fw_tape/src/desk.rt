ghost use Rattle.std.specs.Prelude.{◌<◌, ◌≡◌};
ghost use Rattle.fw_tape.specs.Desks.{AnyBlock, AnyVendorByte};

/// Two closures: one gives the blocks of tapes, by tape, frame and block, and the other what a vendor makes of a byte, by
/// company and byte. What they give is what they themselves promise: nothing else is known of it.
#[derive(Drop)]
pub struct Desk<F, H> {
    blocks: F,
    vendor: H,
}

impl<F: Fn(u16, u32, u16) -> [u8; 480], H: Fn(u32, u8) -> u8> Desk<F, H> {
    /// A desk of two closures that may be called on every tape, every frame below 2,592,000 and every block below 300,
    /// and on every company below 2^24 and every byte. Each call that takes a desk asks for these facts again.
    pub fn new(blocks: F, vendor: H) -> Desk<F, H>
        requires blocks { AnyBlock (F.pre blocks) }
        requires vendor { AnyVendorByte (H.pre vendor) }
        ensures blocks { result.blocks ≡ blocks }
        ensures vendor { result.vendor ≡ vendor }
        ensures any_block { AnyBlock (F.pre result.blocks) }
        ensures any_vendor_byte { AnyVendorByte (H.pre result.vendor) }
    {
        Desk { blocks, vendor }
    }

    /// A block of a frame of a tape.
    pub fn block(&self, tape: u16, frame: u32, block: u16) -> [u8; 480]
        requires desk { AnyBlock (F.pre self.now.blocks) }
        requires frame { frame < 2592000 }
        requires block { block < 300 }
        ensures { F.post self.now.blocks tape frame block result }
    {
        (self.blocks)(tape, frame, block)
    }

    /// What the vendor with this company ID makes of a byte.
    pub fn vendor_byte(&self, company: u32, byte: u8) -> u8
        requires desk { AnyVendorByte (H.pre self.now.vendor) }
        requires company { company < 16777216 }
        ensures { H.post self.now.vendor company byte result }
    {
        (self.vendor)(company, byte)
    }
}
