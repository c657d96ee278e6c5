// Lists that grow at their end.
ghost use Rattle.std.specs.Prelude.{◌≡◌, ◌++◌, ◌∷◌, [], IfOk, IfErr};
ghost use Rattle.item_blocks.specs.declared.fault.ParseFault.TheVariants.{NoMemory};

use item_blocks::ParseFault;

/// A list with one thing more.
pub fn added<T: Drop>(list: Vec<T>, one: T) -> Result<Vec<T>, ParseFault>
    ensures found { IfOk result (λ new. new.items ≡ list.items ++ one ∷ []) }
    ensures memory { IfErr result (λ f. f ≡ NoMemory) }
{
    let mut list = list;
    if list.push(one).is_err() {
        return Err(ParseFault::NoMemory);
    }
    Ok(list)
}
