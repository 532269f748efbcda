ghost use Rattle.std.specs.Prelude.{◌≡◌, IfOk};
ghost use Rattle.bcj_decl_rules.specs.Faults.{stands_twice, param_names};

use bcj_parser_trees::Param;
use std::alloc::{AllocError, Global};
use std::collections::HashSet;

/// Whether two parameters have one name (JLS 8.4.1).
pub fn has_parameter_twice(alloc: Global, params: &[Param]) -> Result<bool, AllocError>
    ensures { IfOk result (λ b. b ≡ stands_twice (param_names params.now)) }
{
    let mut seen: HashSet<String> = HashSet::new(alloc);
    for i in (0..params.len()).rev() {
        if !seen.insert(String::from_str(alloc, params[i].name.as_str())?)? {
            return Ok(true);
        }
    }
    Ok(false)
}
