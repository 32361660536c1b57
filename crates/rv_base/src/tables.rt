//! Tables of names.
ghost use Rattle.std.specs.Prelude.{◌≡◌, map};
ghost use Rattle.rv_base.specs.Tables.{lookup};

/// Returns what stands beside a name in a table, at the first row with the name where there are several.
#[tactic(auto, using(crate::proofs::TableRows::row_steps))]
pub fn look_up<F: Copy>(table: &[(&str, F)], name: &[u8]) -> Option<F>
    ensures { result ≡ lookup name.now (map (λ row. (row.0.now, row.1)) table.now) }
{
    for row in table {
        if row.0.as_bytes() == name {
            return Some(row.1);
        }
    }
    None
}
