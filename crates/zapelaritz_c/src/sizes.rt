// How many numbers the lent slices have, and the library's version.
ghost use Rattle.std.specs.Prelude.{◌≡◌};
ghost use Rattle.tables.specs.ElementsTable.{elements_size};
ghost use Rattle.tables.specs.Limits.{deck_limit};
ghost use Rattle.tables.specs.LogTable.{log_size};
ghost use Rattle.tables.specs.ModelTable.{model_size};
ghost use Rattle.tables.specs.SchemaTable.{schema_size};
ghost use Rattle.answer_numbers.specs.Numbers.{answer_size};
ghost use Rattle.zapelaritz_c.specs.Version.{version};

use answer_numbers::numbers::ANSWER_SIZE;
use tables::elements::ELEMENTS_SIZE;
use tables::limits::DECK_LIMIT;
use tables::log::LOG_SIZE;
use tables::model::MODEL_SIZE;
use tables::schema::SCHEMA_SIZE;

// 0.2.0
const VERSION: u64 = 200;

// The bytes of the longest deck that loads.
#[unsafe(no_mangle)]
pub extern "C" fn zapelaritz_deck_limit() -> usize
    ensures { result ≡ deck_limit }
{
    DECK_LIMIT
}

#[unsafe(no_mangle)]
pub extern "C" fn zapelaritz_schema_size() -> usize
    ensures { result ≡ schema_size }
{
    SCHEMA_SIZE
}

#[unsafe(no_mangle)]
pub extern "C" fn zapelaritz_elements_size() -> usize
    ensures { result ≡ elements_size }
{
    ELEMENTS_SIZE
}

#[unsafe(no_mangle)]
pub extern "C" fn zapelaritz_model_size() -> usize
    ensures { result ≡ model_size }
{
    MODEL_SIZE
}

#[unsafe(no_mangle)]
pub extern "C" fn zapelaritz_log_size() -> usize
    ensures { result ≡ log_size }
{
    LOG_SIZE
}

#[unsafe(no_mangle)]
pub extern "C" fn zapelaritz_answer_size() -> usize
    ensures { result ≡ answer_size }
{
    ANSWER_SIZE
}

#[unsafe(no_mangle)]
pub extern "C" fn zapelaritz_version() -> u64
    ensures { result ≡ version }
{
    VERSION
}
