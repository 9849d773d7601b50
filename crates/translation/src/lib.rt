// Operation Translate with demands 2 and 3: a block's words are the Rust's where no instruction is Zbb's, and what they
// do to the slots is what the ISA does to the guest's registers; the same up to a helper's call and after it (document
// 02, No. 5). How long a block may be (document 02, No. 7).
#![tactic(auto)]

ghost use Rattle.std.specs.Prelude.{◌≡◌, length, take};
ghost use Rattle.translator.specs.Translate as T;
ghost use Rattle.translator.specs.Numbers.{numbers};
ghost use Rattle.translation.specs.Demand3.{HelperFree, Demand3};
ghost use Rattle.translation.specs.HelperBlock.{HelperEnded, HelperBlock};
ghost use Rattle.translation.specs.RustBlock.{ZbbFree, RustBlock};
ghost use Rattle.translation.specs.Size.{Size};

use emit_native::Host;
use rules::refusals::Refusal;
use translator::Translated;

pub fn translate(
    guest: &[u8],
    pc: u64,
    limit: u32,
    host: Host,
    output: &mut [u8],
) -> Result<Translated, Refusal>
    ensures answer { T.result (numbers result) output.new ≡ T.translate host guest.now pc limit output.old }
    ensures demand3 { HelperFree (numbers result).end → Demand3 guest.now pc limit host.ignore_ebreak host.slot_offset (take (numbers result).length output.new) (numbers result).count }
    ensures helper_block { HelperEnded (numbers result).end → HelperBlock host guest.now pc limit (take (numbers result).length output.new) (numbers result).count }
    ensures rust_block { (numbers result).refusal ≡ 0 → ZbbFree guest.now pc (numbers result).count 0 → RustBlock host guest.now pc limit (take (numbers result).length output.new) (numbers result).count }
    ensures size { Size host limit (length output.old) (numbers result).refusal (numbers result).length }
{
    translator::translate(guest, pc, limit, host, output)
}
