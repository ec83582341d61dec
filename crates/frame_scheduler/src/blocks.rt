ghost use Rattle.std.specs.Prelude.{◌≡◌, ◌+◌, ◌^◌, ◌<◌, ◌≤◌, ◌++◌, All, length, map};
ghost use Rattle.frame_scheduler.specs.Blocks.{blocks_room, lane_block, moved_on, next_blocks};
ghost use Rattle.frame_scheduler.specs.ServicesLeft.{IsNumbered};

use arrayvec::ArrayVec;
use lanes::PlacedService;
use service_blocks::write_block;

/// The service blocks of the next frame, one for each lane that is sent something in it.
pub(crate) fn next_blocks(services: &mut [PlacedService]) -> ArrayVec<u8, 35>
    requires small { All (λ planned. planned.frame + 1 < 2 ^ 32) services.old }
    requires numbered { All IsNumbered services.old }
    requires room { blocks_room services.old ≤ 35 }
    ensures blocks { result.items ≡ next_blocks services.old }
    ensures moved { services.new ≡ map moved_on services.old }
{
    let mut blocks = ArrayVec::new();
    for service in services {
        push_block(service, &mut blocks);
    }
    blocks
}

/// Appends the block of a lane in its next frame, if it is sent something.
fn push_block(service: &mut PlacedService, blocks: &mut ArrayVec<u8, 35>)
    requires small { service.old.frame + 1 < 2 ^ 32 }
    requires numbered { IsNumbered service.old }
    requires room { length blocks.old.items + service.old.share + 1 ≤ 35 }
    ensures block { blocks.new.items
        ≡ blocks.old.items ++ lane_block service.old.frame service.old }
    ensures room { length blocks.new.items ≤ length blocks.old.items + service.old.share + 1 }
    ensures moved { service.new ≡ moved_on service.old }
{
    let bytes = service.next();
    if !bytes.is_empty() {
        write_block(service.service(), &bytes, blocks);
    }
}
