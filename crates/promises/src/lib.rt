// What recover, encode and message_of promise: specs/Promises.antt. No code.
#![tactic(auto)]
