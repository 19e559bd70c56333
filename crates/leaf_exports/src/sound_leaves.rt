// The values of G.711 codes, of which a level shows no sign.
ghost use Rattle.std.specs.Prelude.{◌≡◌};
ghost use Rattle.g711.specs.Expansion.{a_law, mu_law};

#[unsafe(no_mangle)]
pub extern "C" fn leaf_a_law(code: u8) -> i16
    ensures { result ≡ a_law code }
{
    g711::expansion::a_law(code)
}

#[unsafe(no_mangle)]
pub extern "C" fn leaf_mu_law(code: u8) -> i16
    ensures { result ≡ mu_law code }
{
    g711::expansion::mu_law(code)
}
