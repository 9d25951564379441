// A model changed in its properties.
ghost use Rattle.std.specs.Prelude.{◌≡◌, ◌<◌};
ghost use Rattle.models.specs.Places.{places_by_property};

use crate::model::Model;

// The places of the model with property j alone, which need not be one that it has: so the array is asked and not `properties`.
#[tactic(auto, unfolding(crate::specs::Places::places_by_property))]
pub fn by_property(m: Model, j: usize) -> Model
    requires { j < 4 }
    ensures { result ≡ places_by_property j m }
{
    Model {
        properties: 1,
        props: [m.props[j], 0, 0, 0],
        ..m
    }
}
