use crate::call::Call;
use crate::declared::{Callback, Object, Registration, Thread};
use cx_names::{CallbackNo, ObjectNo, ThreadNo};

/// What a text says: its threads, objects, callbacks and bodies, each by its number.
#[derive(Drop)]
pub struct Plan {
    pub version: u32,
    pub threads: Vec<Thread>,
    pub objects: Vec<Object>,
    pub callbacks: Vec<Callback>,
    pub bodies: Vec<Vec<Call>>,
}

impl Plan {
    ghost use Rattle.std.specs.Prelude.{◌≡◌, slice_get};
    ghost use Rattle.std.specs.Option.{option_copied};
    ghost use Rattle.cx_scene.specs.Scene.{scene_of, body_of, registration, stop_of};

    /// The calls of the body of thread `t`, none where it has no body.
    pub fn body(&self, t: ThreadNo) -> &[Call]
        ensures { result.now ≡ body_of (scene_of self.now) t.0 }
    {
        match self.bodies.get(t.0 as usize) {
            Some(calls) => calls.as_slice(),
            None => &[],
        }
    }

    /// Call `n` of the body of thread `t`.
    pub fn call(&self, t: ThreadNo, n: usize) -> Option<&Call>
        ensures { option_copied result ≡ slice_get (body_of (scene_of self.now) t.0) n }
    {
        self.body(t).get(n)
    }

    /// Object `o`.
    pub fn object(&self, o: ObjectNo) -> Option<&Object>
        ensures { option_copied result ≡ slice_get (scene_of self.now).objects o.0 }
    {
        self.objects.get(o.0 as usize)
    }

    /// Thread `t`.
    pub fn thread(&self, t: ThreadNo) -> Option<Thread>
        ensures { result ≡ slice_get (scene_of self.now).threads t.0 }
    {
        self.threads.get(t.0 as usize).copied()
    }

    /// Callback `k`.
    pub fn callback(&self, k: CallbackNo) -> Option<Callback>
        ensures { result ≡ slice_get (scene_of self.now).callbacks k.0 }
    {
        self.callbacks.get(k.0 as usize).copied()
    }

    /// What the call of this ID registers; an ID is the number of the registering thread times
    /// 4,096 plus the number of its call.
    pub fn registration(&self, id: u64) -> Option<Registration>
        ensures { result ≡ registration (scene_of self.now) id }
    {
        let calls = self.bodies.get((id / 4096) as usize)?;
        match calls.get((id % 4096) as usize)? {
            Call::Register(k) => Some(Registration::OfCallback(*k)),
            Call::WaitStop(c, _, stop, _) => Some(Registration::OfWait(*c, *stop)),
            _ => None,
        }
    }

    /// The stop state of a registration.
    pub fn stop_of(&self, registered: Registration) -> Option<ObjectNo>
        ensures { result ≡ stop_of (scene_of self.now) registered }
    {
        match registered {
            Registration::OfCallback(k) => match self.callback(k) {
                Some(callback) => Some(callback.stop),
                None => None,
            },
            Registration::OfWait(_, stop) => Some(stop),
        }
    }
}
