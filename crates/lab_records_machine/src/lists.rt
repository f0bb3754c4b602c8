//! Short lists, such as the changes of a command. Their functions are generic, so that no list is
//! proved twice.
ghost use Rattle.std.specs.Prelude.{◌≡◌, ◌++◌, ◌∷◌, [], IfOk};

use lab_forms_texts::{OutOfMemory, Series};
use std::alloc::Global;

/// Makes a list of one value. Fails only if memory runs out.
///
/// # Errors
/// Memory ran out.
pub fn single<T: Drop>(alloc: Global, first: T) -> Result<Series<T>, OutOfMemory>
    ensures { IfOk result (λ list. list ≡ first ∷ []) }
{
    let mut list = Series::new(alloc);
    list.push(first)?;
    Ok(list)
}

/// Makes a list of two values. Fails only if memory runs out.
///
/// # Errors
/// Memory ran out.
pub fn pair<T: Drop>(alloc: Global, first: T, second: T) -> Result<Series<T>, OutOfMemory>
    ensures { IfOk result (λ list. list ≡ first ∷ second ∷ []) }
{
    let mut list = single(alloc, first)?;
    list.push(second)?;
    Ok(list)
}

/// Makes a list of three values. Fails only if memory runs out.
///
/// # Errors
/// Memory ran out.
pub fn triple<T: Drop>(
    alloc: Global,
    first: T,
    second: T,
    third: T,
) -> Result<Series<T>, OutOfMemory>
    ensures { IfOk result (λ list. list ≡ first ∷ second ∷ third ∷ []) }
{
    let mut list = pair(alloc, first, second)?;
    list.push(third)?;
    Ok(list)
}

/// Appends the second list to the first. Fails only if memory runs out.
///
/// # Errors
/// Memory ran out.
pub fn joined_list<T: Drop>(first: Series<T>, second: Series<T>) -> Result<Series<T>, OutOfMemory>
    ensures { IfOk result (λ list. list ≡ first ++ second) }
{
    let mut list = first.into_vec();
    list.extend(second.into_vec())?;
    Ok(Series::from_vec(list))
}
