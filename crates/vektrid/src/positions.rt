// Positions on the stage.
ghost use Rattle.std.specs.Prelude.{◌≡◌};
ghost use Rattle.refusal.specs.Outcome.{part_left};
ghost use Rattle.answers.specs.Answers.{answer_number};
ghost use Rattle.vektrid.specs.Regions.{region_position_outcome};

use stage::{Field, Region};

// Where the point with coordinate words x and y lies in a region, for a reader's field.
#[unsafe(no_mangle)]
pub extern "C" fn vektrid_position(
    left: i32,
    top: i32,
    width: u32,
    height: u32,
    field_width: u32,
    field_height: u32,
    x: u32,
    y: u32,
    at_x: &mut i32,
    at_y: &mut i32,
) -> u32
    ensures answer { result ≡ answer_number (region_position_outcome left top width height field_width field_height x y) }
    ensures x { at_x.new
        ≡ part_left (region_position_outcome left top width height field_width field_height x y) (λ p. p.x) at_x.old }
    ensures y { at_y.new
        ≡ part_left (region_position_outcome left top width height field_width field_height x y) (λ p. p.y) at_y.old }
{
    let region = Region {
        left,
        top,
        width,
        height,
    };
    let field = Field {
        width: field_width,
        height: field_height,
    };
    match region.position(field, x, y) {
        Err(why) => why.number(),
        Ok(at) => {
            *at_x = at.x;
            *at_y = at.y;
            0
        }
    }
}
