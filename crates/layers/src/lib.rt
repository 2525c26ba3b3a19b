// Velocity layers: up to sixteen numbers that are added to a note's velocity, each of which may have something reserved as a
// note parameter has. The layers are handed in by value and handed back, advanced. Every public function tests what it is
// handed, the layers too; where it refuses, it hands back the layers that it was given.
#![tactic(auto)]

ghost use Rattle.std.specs.Prelude.{◌≡◌, true, false, ◌&&◌, ◌+◌, ◌*◌, ◌<◌, ◌≤◌, ◌^◌, get_or};
ghost use Rattle.std.specs.Fn.{FnOnceReturnsAtMut};
ghost use Rattle.std.specs.Int.Signed.{mag};
ghost use Rattle.numbers.specs.Limits.{layer_limit};
ghost use Rattle.numbers.specs.Ranges.{is_time};
ghost use Rattle.layers.specs.Layers.{fresh_layer, one_layer, ok_layer, ok_layers, grown, changed, heard_of};
ghost use Rattle.layers.specs.Calls.{further, reserving, set_v_sub, set_v_sub_random, set_v_sub_on_time, set_v_sub_on_cycle, set_v_sub_on_note, summed, apply_v_sub};

use numbers::{Refusal, is_number, is_random, is_time};
use reserved::{
    ON_NOTE, Reserve, Taken, curve_asked, cycle_asked, idle_reserve, notes_asked, reserve_ok,
};

// How many layers a track may have.
pub const LAYER_LIMIT: usize = 16;

#[repr(C)]
#[derive(Clone, Copy)]
pub struct Layer {
    pub value: i32,
    pub random: i32,
    pub reserve: Reserve,
}

#[repr(C)]
#[derive(Clone, Copy)]
pub struct Layers {
    pub count: usize,
    pub items: [Layer; LAYER_LIMIT], // an array with its count: C lends it within a track, and nothing here takes memory
}

// The layers as a call leaves them.
#[repr(C)]
#[derive(Clone, Copy)]
pub struct LayersAnswer {
    pub code: u32, // a number beside what it goes with: C reads this record
    pub layers: Layers,
}

// The same with a note's velocity.
#[repr(C)]
#[derive(Clone, Copy)]
pub struct Velocity {
    pub code: u32, // a number beside what it goes with: C reads this record
    pub value: i64,
    pub layers: Layers,
}

// What one layer adds to a note, and what it then is.
#[derive(Clone, Copy)]
pub struct Heard {
    pub value: i32,
    pub layer: Layer,
}

fn fresh_layer() -> Layer
    ensures { result ≡ fresh_layer }
{
    Layer {
        value: 0,
        random: 0,
        reserve: idle_reserve(),
    }
}

// Whether every number of a layer is in its range.
#[tactic(auto, unfolding(crate::specs::Layers::ok_layer))]
pub fn layer_ok(layer: Layer) -> bool
    ensures { result ≡ ok_layer layer }
{
    is_number(layer.value) & is_random(layer.random) & reserve_ok(layer.reserve)
}

// Whether there are 1 to 16 layers, every number of which is in its range. Each is read by value: an iterator over them would have
// the compiled code copy all sixteen first.
#[tactic(auto, unfolding(crate::specs::Layers::ok_layers))]
pub fn layers_ok(layers: Layers) -> bool
    ensures { result ≡ ok_layers layers }
{
    let n = layers.count;
    if n == 0 {
        return false;
    }
    if LAYER_LIMIT < n {
        return false;
    }
    for i in 0..n {
        if !layer_ok(layers.items[i]) {
            return false;
        }
    }
    true
}

// The layers with empty ones up to `index`.
#[tactic(auto, unfolding(crate::specs::Layers::grown))]
fn grow(mut layers: Layers, index: usize) -> Layers
    requires { index < layer_limit }
    ensures { result ≡ grown layers index }
{
    if layers.count <= index {
        let first = layers.count;
        layers.items[first..index + 1].fill(fresh_layer());
        layers.count = index + 1;
    }
    layers
}

// What a layer adds to a note at `timepos`, and what it then is.
#[tactic(auto, unfolding(crate::specs::Layers::heard_of, crate::specs::Layers::ok_layer))]
fn layer_heard(layer: Layer, timepos: i64) -> Heard
    requires layer_value { ok_layer layer ≡ true }
    requires timepos_value { is_time timepos ≡ true }
    ensures { result ≡ heard_of timepos layer }
{
    if layer.reserve.kind == ON_NOTE {
        let Taken { value, reserve } = layer.reserve.next(layer.value);
        Heard {
            value,
            layer: Layer {
                value,
                reserve,
                ..layer
            },
        }
    } else {
        let Taken { value, reserve } = layer.reserve.at_time(timepos, layer.value);
        Heard {
            value,
            layer: Layer { reserve, ..layer },
        }
    }
}

// The sum so far and the layers, one layer further.
#[tactic(auto, unfolding(crate::specs::Calls::further))]
fn advance(mut sum: Velocity, i: usize, timepos: i64) -> Velocity
    requires i_lt_layer_limit { i < layer_limit }
    requires fresh_layer_value { ok_layer (get_or sum.layers.items i fresh_layer) ≡ true }
    requires timepos_value { is_time timepos ≡ true }
    requires value_bound { mag sum.value ≤ (i + 1) * 2 ^ 32 }
    ensures value { result ≡ further sum i timepos }
    ensures value_bound_2 { mag result.value ≤ (i + 2) * 2 ^ 32 }
{
    let heard = layer_heard(sum.layers.items[i], timepos);
    sum.layers.items[i] = heard.layer;
    sum.value += i64::from(heard.value);
    sum
}

// The velocity with what every layer adds to it, and the layers advanced.
fn sum_layers(layers: Layers, timepos: i64, velocity: i32) -> Velocity
    requires layers_value { ok_layers layers ≡ true }
    requires timepos_value { is_time timepos ≡ true }
    ensures { result ≡ summed layers timepos velocity }
{
    let mut sum = Velocity {
        code: 0,
        value: i64::from(velocity),
        layers,
    };
    for i in 0..layers.count {
        sum = advance(sum, i, timepos);
    }
    sum
}

impl Layers {
    // One layer, with nothing set.
    pub fn new() -> Layers
        ensures { result ≡ one_layer }
    {
        Layers {
            count: 1,
            items: [fresh_layer(); LAYER_LIMIT],
        }
    }

    // The layers grown up to `index` and the one there changed, where they are in range and so is what is asked with the index, or as
    // they were given.
    #[tactic(auto, unfolding(crate::specs::Layers::changed))]
    fn changed<F: FnOnce(&mut Layer)>(self, index: usize, ok: bool, change: F) -> LayersAnswer
        requires { F.IsAlwaysCallable change }
        ensures refused { (ok_layers self && ok) ≡ false → result ≡ record { code = 4; layers = self } }
        ensures beyond { (ok_layers self && ok) ≡ true → layer_limit ≤ index → result ≡ record { code = 5; layers = self } }
        ensures changed { (ok_layers self && ok) ≡ true → index < layer_limit → (result.code ≡ 0) × ((a : Layer) × FnOnceReturnsAtMut F.FnOnce change (get_or (grown self index).items index fresh_layer) tt a × (result.layers ≡ changed self index (λ _. a))) }
    {
        if !(layers_ok(self) & ok) {
            return LayersAnswer {
                code: Refusal::OutOfRange.number(),
                layers: self,
            };
        }
        if LAYER_LIMIT <= index {
            return LayersAnswer {
                code: Refusal::NoLayer.number(),
                layers: self,
            };
        }
        let mut layers = grow(self, index);
        change(&mut layers.items[index]);
        LayersAnswer { code: 0, layers }
    }

    // The layers with what is to be reserved for one, or as they were given.
    fn reserving(self, index: usize, made: Result<Reserve, Refusal>) -> LayersAnswer
        ensures { result ≡ reserving (ok_layers self) self index made }
    {
        match made {
            Ok(reserve) => self.changed(index, true, |layer| layer.reserve = reserve),
            Err(refusal) => LayersAnswer {
                code: refusal.number(),
                layers: self,
            },
        }
    }

    // A layer's value; nothing stays reserved for it. Refuses 4, 5.
    pub fn set_v_sub(self, index: usize, velocity: i32) -> LayersAnswer
        ensures { result ≡ set_v_sub self index velocity }
    {
        self.changed(index, is_number(velocity), |layer| {
            layer.value = velocity;
            layer.reserve = idle_reserve();
        })
    }

    // A layer's random width. Refuses 4, 5.
    pub fn set_v_sub_random(self, index: usize, random: i32) -> LayersAnswer
        ensures { result ≡ set_v_sub_random self index random }
    {
        self.changed(index, is_random(random), |layer| layer.random = random)
    }

    // Reserves a curve for a layer, from `timepos` and the velocity parameter's delay on. Refuses 3, 4, 5.
    pub fn set_v_sub_on_time(
        self,
        index: usize,
        timepos: i64,
        delay: i32,
        values: &[i32],
    ) -> LayersAnswer
        ensures { result ≡ set_v_sub_on_time self index timepos delay values.now }
    {
        self.reserving(index, curve_asked(timepos, delay, values))
    }

    // Reserves a cycle for a layer, its length and then its values, from `timepos` and the velocity parameter's delay on; nothing,
    // where there is no value. Refuses 3, 4, 5.
    pub fn set_v_sub_on_cycle(
        self,
        index: usize,
        timepos: i64,
        delay: i32,
        args: &[i32],
    ) -> LayersAnswer
        ensures { result ≡ set_v_sub_on_cycle self index timepos delay args.now }
    {
        self.reserving(index, cycle_asked(timepos, delay, args))
    }

    // Reserves a value of a layer for each of the next notes, round and round where the velocity parameter's repeat stands.
    // Refuses 3, 4, 5.
    pub fn set_v_sub_on_note(self, index: usize, repeat: u32, values: &[i32]) -> LayersAnswer
        ensures { result ≡ set_v_sub_on_note self index repeat values.now }
    {
        self.reserving(index, notes_asked(repeat, values))
    }

    // A note's velocity at `timepos`: the given one and what every layer adds to it. The layers come back advanced. Refuses 4.
    #[tactic(auto, unfolding(crate::specs::Calls::apply_v_sub))]
    pub fn apply_v_sub(self, timepos: i64, velocity: i32) -> Velocity
        ensures { result ≡ apply_v_sub self timepos velocity }
    {
        if layers_ok(self) & is_time(timepos) & is_number(velocity) {
            sum_layers(self, timepos, velocity)
        } else {
            Velocity {
                code: Refusal::OutOfRange.number(),
                value: 0,
                layers: self,
            }
        }
    }
}
