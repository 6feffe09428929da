//! The law of layers: its function takes nothing and does nothing.

ghost use Rattle.std.specs.Prelude.{◌≡◌, List, [], length};
ghost use Rattle.circuit_list.specs.declared.Gate.{Gate};
ghost use Rattle.circuit_layers.specs.Layers.{layers_of};
ghost use Rattle.circuit_layers.specs.Walk.{rest_after, walk_layers};

/// The layers by levels are those of the walk, and as many turns as there are gates leave none.
pub fn layers_by_walk()
    ensures walk { (gs : List Gate) → layers_of gs ≡ walk_layers gs }
    ensures ends { (gs : List Gate) → rest_after (length gs) gs ≡ [] }
{}
