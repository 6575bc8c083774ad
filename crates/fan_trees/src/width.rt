ghost use Rattle.std.specs.Prelude.{◌≡◌};
ghost use Rattle.fan_trees.specs.FanLayers.{by_width};

/// The first where a half has one port, the second where it has more.
pub fn by_width(ports: u32, one: u32, more: u32) -> u32
    ensures { result ≡ by_width ports one more }
{
    if ports > 1 { more } else { one }
}
