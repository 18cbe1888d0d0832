// Laws of the types.

use crate::valid_module::ValidModule;

/// A valid module may go to other threads, and several threads may read it at the same time.
pub fn valid_modules_cross_threads(module: &ValidModule) {
    is_send_and_sync(module);
}

fn is_send_and_sync<T: Send + Sync>(_value: &T) {}
